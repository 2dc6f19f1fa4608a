// The laws of key sheets, on a call that any program can make.
ghost use Rattle.std.specs.Prelude.{◌≡◌};
ghost use Rattle.splitting.specs.Sources.{PadsAreRows};
ghost use Rattle.dealer.specs.Sheet.{Deal};
ghost use Rattle.dealer.specs.Laws.{KeySheets};

use hash::Hash;

/// Carries the laws of key sheets and parts over a hash, for every plan, identifier, seed and pad
/// sources: how long they are, and what each of their rows holds. It does nothing when it runs.
pub fn key_sheets_hold<H: Hash>()
    ensures { (d : Deal) → d.hashed ≡ H.hashed → PadsAreRows d.sources → KeySheets d }
{}
