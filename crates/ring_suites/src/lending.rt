// What helpers lend of a public table.
use crate::once::Once;
use crate::setting::rows_of_key;
use either::Either;
use helper::{Cache, Helper, Pair, Refusal, Table};
use plan::Plan;

// A cache over a pair of helpers of any kinds.
#[derive(Drop)]
struct Pile<A: Helper, B: Helper> {
    cache: Cache<Pair<A, B>>,
}

impl<A: Helper, B: Helper> Pile<A, B> {
    fn of(first: A, second: B) -> Pile<A, B> {
        Pile {
            cache: Cache::new(Pair { first, second }),
        }
    }
}

// Whether a helper lends some rows of a key, as they stand one behind another in some bytes, each of them again when it is asked again, and
// refuses the next as one beyond them.
fn lends_part<H: Helper>(helper: &mut H, key: u32, rows: &[u8]) -> bool {
    let count = rows.len() / 32;
    for (index, row) in rows.chunks_exact(32).enumerate() {
        let (first, again) = (helper.read(key, index), helper.read(key, index));
        match first {
            Ok(lent) if &lent[..] == row && again == first => {}
            _ => return false,
        }
    }
    match helper.read(key, count) {
        Ok(_) => false,
        Err(Refusal::Beyond) => helper.number(key) == count,
    }
}

// Whether a helper lends all rows of a table but some of its last part, key by key.
fn lends_all_but<H: Helper + Drop>(mut helper: H, table: &[u8], plan: &Plan, missing: u16) -> bool {
    let mut rest = table;
    for key in 0..plan.height().keys() {
        let Some((part, behind)) = rest.split_at_checked(32 * rows_of_key(plan, key)) else {
            return false;
        };
        let cut = if behind.is_empty() {
            32 * missing as usize
        } else {
            0
        };
        if !lends_part(&mut helper, key, &part[..part.len().saturating_sub(cut)]) {
            return false;
        }
        rest = behind;
    }
    rest.is_empty()
}

// Whether a cache over a pair lends every row, where the first of the pair is one of two kinds and has the first key's part alone.
fn piled_up(table: &[u8], plan: &Plan) -> bool {
    let Some(front) = table.get(..32 * rows_of_key(plan, 0)) else {
        return false;
    };
    let first: Either<Table, Cache<Table>> = Either::Left(Table::new(front, plan));
    let second = Cache::new(Table::new(table, plan));
    lends_all_but(Pile::of(first, second).cache, table, plan, 0)
}

// Whether a pair lends three rows of the first key, if its first helper has these alone, and all rows of the second key.
fn chooses_by_key(table: &[u8], plan: &Plan) -> bool {
    let (one, two) = (32 * rows_of_key(plan, 0), 32 * rows_of_key(plan, 1));
    let (Some(front), Some(next)) = (table.get(..96), table.get(one..one + two)) else {
        return false;
    };
    let mut pair = Pair {
        first: Table::new(front, plan),
        second: Table::new(table, plan),
    };
    lends_part(&mut pair, 0, front) && lends_part(&mut pair, 1, next)
}

// Whether a cache lends a row again, and another key's part, where the helper below lends that row once only.
fn keeps_what_came_once(table: &[u8], plan: &Plan) -> bool {
    let (one, two) = (32 * rows_of_key(plan, 0), 32 * rows_of_key(plan, 1));
    let (Some(front), Some(next)) = (table.get(..32), table.get(one..one + two)) else {
        return false;
    };
    let mut alone = Once::new(Table::new(front, plan));
    let below = Once::new(Table::new(front, plan));
    let mut pile = Pile::of(below, Table::new(table, plan));
    !lends_part(&mut alone, 0, front)
        && lends_part(&mut pile.cache, 0, front)
        && lends_part(&mut pile.cache, 1, next)
}

// Whether the table of a plan on these bytes lends every row, alone and under pairs and caches, and one that is cut by a byte lacks the last row
// only.
pub(crate) fn lends(bytes: &[u8], plan: &Plan) -> bool {
    let Some((_, short)) = bytes.split_last() else {
        return false;
    };
    lends_all_but(Table::new(bytes, plan), bytes, plan, 0)
        && lends_all_but(Table::new(short, plan), bytes, plan, 1)
        && piled_up(bytes, plan)
        && chooses_by_key(bytes, plan)
        && keeps_what_came_once(bytes, plan)
}
