// What the numbers of an entry are known to be.
ghost use Rattle.std.specs.Prelude.{◌<◌, ◌^◌, IfSome};
ghost use Rattle.std.specs.Int.{w64};
ghost use Rattle.std.specs.Int.RustNames.{FitsSigned};
ghost use Rattle.tf_serial.specs.Numbers.{HasNumbers};

use tf_model::{Entry, Kind};

/// The numbers of an entry fit their types. A law, which does nothing when it runs.
pub fn numbers_fit(entry: &Option<Entry>)
    ensures { IfSome entry.now (λ e. HasNumbers e.kind) }
{
    match entry {
        Some(entry) => kind_fits(&entry.kind),
        None => {}
    }
}

fn kind_fits(kind: &Kind)
    ensures { HasNumbers kind.now }
{
    match kind {
        Kind::Begin { n, bound, .. } => {
            number_fits(*n);
            bound_fits(*bound);
        }
        Kind::Page { n, .. } => number_fits(*n),
        Kind::Finish { n, .. } => number_fits(*n),
        Kind::Fail { n, .. } => number_fits(*n),
        _ => {}
    }
}

fn number_fits(n: u64)
    ensures { n < 2 ^ 64 }
{
    let _n = n;
}

fn bound_fits(bound: Option<i64>)
    ensures { IfSome bound (FitsSigned w64) }
{
    match bound {
        Some(ms) => moment_fits(ms),
        None => {}
    }
}

fn moment_fits(ms: i64)
    ensures { FitsSigned w64 ms }
{
    let _ms = ms;
}
