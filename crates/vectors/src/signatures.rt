// Digits, trees, signatures and verdicts.
ghost use Rattle.std.specs.Prelude.{map};
ghost use Rattle.vectors.specs.declared.signatures.TheConstants.{DIGIT_VALUES, SIGNATURE_VALUES, VERDICT_VALUES};

use anyhow::{Context, ensure};
use either::{Either, Left, Right, for_both};
use hash::Hash;
use lms::{Refusal, Tree, scheme, verify};
use rows::{Identifier, Origin, Seed};
use sha256::Hasher as Sha256;
use shake256::Hasher as Shake256;
use sizes::{Height, Width};
use vector_files::{Block, HashName, Names, Suite, over_hash};

// Width and height are read by a function each: one for both would take the type, the name and the text.
pub(crate) fn width_of(block: &Block) -> anyhow::Result<Width> {
    Width::try_from(block.number("w")?)
        .ok()
        .context("a vector has an unknown width")
}

pub(crate) fn height_of(block: &Block) -> anyhow::Result<Height> {
    Height::try_from(block.number("h")?)
        .ok()
        .context("a vector has an unknown height")
}

const DIGIT_VALUES: &[&str] = &["w", "digest", "digits", "checksum_digits"];

#[derive(Drop)]
pub(crate) struct Digits;

impl Suite for Digits {
    ghost values = { map (λ name. name.now) DIGIT_VALUES.now };

    fn names() -> Names {
        Names {
            values: DIGIT_VALUES,
            cases: &[],
        }
    }

    fn check(&mut self, block: &Block) -> anyhow::Result<Option<bool>> {
        let width = width_of(block)?;
        let digest = block.array::<32>("digest")?;
        let mut wanted = block.numbers("digits")?;
        wanted.extend_from_slice(&block.numbers("checksum_digits")?)?;
        // The number first, since a long list is wrong whatever its digits are.
        let right = wanted.len() == scheme::components(width)
            && wanted.iter().enumerate().all(|(i, digit)| scheme::position(width, &digest, i) as u32
                == *digit);
        Ok(Some(right))
    }
}

// A tree over either hash.
type AnyTree = Either<Tree<Sha256>, Tree<Shake256>>;

fn grow(block: &Block) -> anyhow::Result<AnyTree> {
    let heap = block.heap();
    let height = height_of(block)?;
    let width = width_of(block)?;
    let long = block.bytes("identifier")?.len();
    ensure!(long == 16, "an identifier has not 16 bytes");
    let origin = Origin {
        id: Identifier::new(block.array("identifier")?),
        seed: Seed::new(block.array("seed")?),
    };
    // A switch, since the two trees are of two types.
    Ok(match HashName::of(block)? {
        HashName::Sha256 => Left(Tree::grow(heap, height, width, origin)?),
        HashName::Shake256 => Right(Tree::grow(heap, height, width, origin)?),
    })
}

const SIGNATURE_VALUES: &[&str] = &[
    "hash",
    "h",
    "w",
    "identifier",
    "seed",
    "root",
    "key",
    "message",
    "message_fill",
    "message_length",
    "signature",
    "verdict",
];

// Signatures follow the root of their tree, in its block or in blocks of their own.
#[derive(Drop, Default)]
pub(crate) struct Signatures {
    tree: Option<AnyTree>,
}

fn accepts<H: Hash>(tree: &Tree<H>, message: &[u8], signature: &[u8]) -> bool {
    verify::<H>(&tree.root(), message, signature)
}

// Whether a tree signs as a block says; a message over the bound it must refuse as such, and the verdict on what is given is then no.
fn signs(tree: &AnyTree, block: &Block) -> anyhow::Result<bool> {
    let message = block.message()?;
    let wanted = block.bytes("signature")?;
    let expected = block.text("verdict") != Some("no");
    let key = block.number("key")?;
    let mut signature = vec![in block.heap(); 0u8; wanted.len()]?;
    let signed = match for_both!(tree, tree => tree.sign(key, &message, &mut signature)) {
        Ok(()) => expected && signature.as_slice() == wanted.as_slice(),
        Err(refusal) => !expected && refusal == Refusal::Message,
    };
    let judged = for_both!(tree, tree => accepts(tree, &message, &wanted));
    Ok(signed && judged == expected)
}

impl Suite for Signatures {
    ghost values = { map (λ name. name.now) SIGNATURE_VALUES.now };

    fn names() -> Names {
        Names {
            values: SIGNATURE_VALUES,
            cases: &[],
        }
    }

    fn check(&mut self, block: &Block) -> anyhow::Result<Option<bool>> {
        if block.text("root").is_some() {
            let tree = grow(block)?;
            let root = block.bytes("root")?;
            let same = for_both!(&tree, tree => tree.root().as_slice() == root.as_slice());
            let signed = block.text("key").is_none() || signs(&tree, block)?;
            self.tree = Some(tree);
            return Ok(Some(same && signed));
        }
        let tree = self
            .tree
            .as_ref()
            .context("a signature stands before every root")?;
        Ok(Some(signs(tree, block)?))
    }
}

const VERDICT_VALUES: &[&str] = &[
    "hash",
    "root",
    "message",
    "message_fill",
    "message_length",
    "signature",
    "verdict",
];

#[derive(Drop)]
pub(crate) struct Verdicts;

impl Suite for Verdicts {
    ghost values = { map (λ name. name.now) VERDICT_VALUES.now };

    fn names() -> Names {
        Names {
            values: VERDICT_VALUES,
            cases: &[],
        }
    }

    fn check(&mut self, block: &Block) -> anyhow::Result<Option<bool>> {
        let root = block.bytes("root")?;
        let message = block.message()?;
        let signature = block.bytes("signature")?;
        let judged = over_hash!(HashName::of(block)?, verify(&root, &message, &signature));
        Ok(Some(judged == (block.required("verdict")? == "yes")))
    }
}
