// The dealer's root and signatures.
ghost use Rattle.std.specs.Prelude.{◌≡◌, true, length, IfOk, MatchResult, OnOk};
ghost use Rattle.std.specs.Result.{result_err};
ghost use Rattle.checks.specs.Checks.{first_refusal};
ghost use Rattle.plan.specs.View.{view};
ghost use Rattle.lms.specs.Scheme.{root, signature, verdict};
ghost use Rattle.dealer.specs.Dealt.{plan_of, identifier_of, seed_of, identifier_in, seed_in, root_checks, sign_checks};

use crate::dealers::Dealer;
use crate::refusal::Refusal;
use hash::Hash;
use lms::scheme::{ROOT_LENGTH, Tree};
use plan::Plan;
use rows::Origin;
use std::alloc::{AllocError, Global};

impl<H: Hash> Dealer<H> {
    /// The dealer of a plan, from an identifier and a seed, unless there is no memory for the tree.
    pub fn new(heap: Global, plan: Plan, origin: Origin) -> Result<Dealer<H>, AllocError>
        ensures plan { IfOk result (λ d. plan_of d ≡ view plan) }
        ensures identifier { IfOk result (λ d. identifier_of d ≡ identifier_in origin) }
        ensures seed { IfOk result (λ d. seed_of d ≡ seed_in origin) }
    {
        let tree = Tree::grow(heap, plan.height(), plan.width(), origin)?;
        Ok(Dealer { plan, tree })
    }

    /// Writes the root, as RFC 8554 (section 5.3) lays out a public key, over all of a buffer of 56
    /// bytes; any other length is refused (20).
    pub fn root(&self, out: &mut [u8]) -> Result<(), Refusal>
        ensures answer { result_err result ≡ first_refusal (root_checks (length out.old)) }
        ensures written { let p = plan_of self.now in MatchResult result
            (λ _. out.new ≡ root H.hashed H.ots H.tree p.height p.width
            (identifier_of self.now) (seed_of self.now))
            (λ _. out.new ≡ out.old) }
    {
        if out.len() != ROOT_LENGTH {
            return Err(Refusal::Buffer);
        }
        out.copy_from_slice(&self.tree.root());
        Ok(())
    }

    /// Writes the signature (RFC 8554, section 5.4) of a message by a dealt key over all of a
    /// buffer. That a key signs one message only is for the caller to keep.
    ///
    /// Refuses, in this order: a key that is not dealt (9), a buffer that has not a signature's
    /// length (20), and a message of more than 65,536 bytes (12).
    pub fn sign(&self, key: u32, message: &[u8], out: &mut [u8]) -> Result<(), Refusal>
        ensures answer { result_err result ≡ first_refusal
            (sign_checks (plan_of self.now) key (length message.now) (length out.old)) }
        ensures written { let p = plan_of self.now in MatchResult result
            (λ _. out.new ≡ signature H.hashed H.ots H.tree p.height p.width
            (identifier_of self.now) (seed_of self.now) key message.now)
            (λ _. out.new ≡ out.old) }
        ensures accepted { let p = plan_of self.now in
            let public = root H.hashed H.ots H.tree p.height p.width
            (identifier_of self.now) (seed_of self.now) in
            OnOk result (verdict H.hashed H.ots H.tree public message.now out.new ≡ true) }
    {
        self.plan.owner(key).ok_or(Refusal::Undealt)?;
        self.tree.sign(key, message, out)?;
        Ok(())
    }
}
