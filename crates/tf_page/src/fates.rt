// What becomes of the key of a document that is offered, told before the key is made.
ghost use Rattle.std.specs.Prelude.{◌≡◌};
ghost use Rattle.std.specs.Option.{option_copied};
ghost use Rattle.tf_model.specs.Conditions.{Fits, IsInRange};
ghost use Rattle.tf_model.specs.Keys.{key_of};
ghost use Rattle.tf_page.specs.Fates as spec;

use std::cmp::Ordering;
use tf_group::compare_key;
use tf_model::{Config, Doc, Key};

/// What becomes of a key that is offered.
#[derive(Clone, Copy, PartialEq, Eq, Debug)]
pub enum Fate {
    /// It changes nothing: there is none, or it is not above the position, or it is the greatest that is kept.
    Passed,
    /// There is no room for it, and it is above all that are kept.
    LeftOut,
    /// It may have to be kept.
    Wanted,
}

/// What becomes of the key of a document. The greatest key is given where there is no room for another. Takes no memory.
pub fn fate_of(config: &Config, doc: &Doc, after: Option<&Key>, greatest: Option<&Key>) -> Fate
    requires config { IsInRange config.now }
    requires doc { Fits config.now doc.now }
    ensures { result ≡ spec.fate_of (option_copied after.entry) (option_copied greatest.entry) (key_of config.now doc.now) }
{
    if is_passed(config, doc, after) {
        Fate::Passed
    } else {
        fate_below(config, doc, greatest)
    }
}

/// Whether there is no key, or it is not above the position.
fn is_passed(config: &Config, doc: &Doc, after: Option<&Key>) -> bool
    requires config { IsInRange config.now }
    requires doc { Fits config.now doc.now }
    ensures { result ≡ spec.is_passed (option_copied after.entry) (key_of config.now doc.now) }
{
    match after {
        None => false,
        Some(position) => match compare_key(config, doc, position) {
            Some(order) => !order.is_gt(),
            None => true,
        },
    }
}

/// What becomes of the key under the greatest that is kept, which is none while there is room for another.
fn fate_below(config: &Config, doc: &Doc, greatest: Option<&Key>) -> Fate
    requires config { IsInRange config.now }
    requires doc { Fits config.now doc.now }
    ensures { result ≡ spec.fate_below (option_copied greatest.entry) (key_of config.now doc.now) }
{
    match greatest {
        None => Fate::Wanted,
        Some(greatest) => match compare_key(config, doc, greatest) {
            Some(Ordering::Less) => Fate::Wanted,
            Some(Ordering::Greater) => Fate::LeftOut,
            Some(Ordering::Equal) => Fate::Passed,
            None => Fate::Passed,
        },
    }
}
