// A plan dealt from an example seed. Real seeds and pad keys are drawn elsewhere and kept secret.
use anyhow::anyhow;
use dealer::Dealer;
use layout::{part_rows, table_rows};
use pads::HmacPads;
use plan::Plan;
use rows::{Identifier, Origin, Seed};
use sha256::{Hasher, sha256};
use std::alloc::Global;

#[derive(Drop)]
pub(crate) struct Example {
    plan: Plan,
    dealer: Dealer<Hasher>,
    sources: Vec<HmacPads<Hasher>>,
}

// The identifier is the first half of the digest of a name, and the seed a digest.
fn origin() -> Origin {
    let mut bytes = [0u8; 16];
    bytes.copy_from_slice(&sha256(b"example identifier")[0..16]);
    Origin {
        id: Identifier::new(bytes),
        seed: Seed::new(sha256(b"example seed")),
    }
}

impl Example {
    pub(crate) fn new(heap: Global, plan: Plan) -> anyhow::Result<Example> {
        let dealer = Dealer::<Hasher>::new(heap, plan, origin())?;
        let mut sources = Vec::new(heap);
        for trustee in 1..=plan.trustees() {
            let key = sha256(&[b'p', b'a', b'd', b's', trustee]);
            sources.push(HmacPads::new(&key))?;
        }
        Ok(Example {
            plan,
            dealer,
            sources,
        })
    }

    // The root, and the sizes of parts and table.
    pub(crate) fn show(&self, rt: &HostRuntime) -> anyhow::Result<()> {
        let mut root = [0u8; 56];
        self.dealer.root(&mut root).unwrap();
        let text = hex::encode(rt.alloc(), root)?;
        println!(rt; "root {text}")?;
        for group in self.plan.iter() {
            let number = group.number;
            let members = group.size();
            let keys = group.count;
            let rows = part_rows(self.plan.height(), self.plan.width(), &group);
            println!(rt; "group {number}: {members} members, {keys} keys, {rows} rows a key")?;
        }
        let rows = table_rows(&self.plan);
        let bytes = 32 * rows;
        println!(rt; "public table: {rows} rows, {bytes} bytes")?;
        Ok(())
    }

    // Deals every key of the plan, and prints the digest of the table.
    pub(crate) fn deal(&self, rt: &HostRuntime) -> anyhow::Result<()> {
        let dealt = self.plan.height().keys() - self.plan.undealt();
        let mut table = vec![in rt.alloc(); 0u8; 32 * table_rows(&self.plan)]?;
        for key in 0..dealt {
            if let Err(refusal) = self.dealer.deal_part(&self.sources, key, &mut table) {
                let number = refusal.number();
                println!(rt; "key {key}: refusal {number}")?;
                return Err(anyhow!("a key was not dealt"));
            }
            if key % 8 == 7 || key + 1 == dealt {
                let done = key + 1;
                eprintln!(rt; "dealt {done} of {dealt} keys")?;
            }
        }
        let digest = hex::encode(rt.alloc(), sha256(&table))?;
        println!(rt; "table's SHA-256 {digest}")?;
        Ok(())
    }
}
