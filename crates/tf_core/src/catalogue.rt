// The indices that are there while entries are prepared: those of the history, and those that the entries before make.
ghost use Rattle.std.specs.Prelude.{◌≡◌, ◌++◌, ◌+◌, ◌<◌, ◌^◌, IfOk, slice_get, option_map};
ghost use Rattle.std.specs.Option.{option_copied};
ghost use Rattle.tf_history.specs.Catalogue as spec;
ghost use Rattle.tf_config.specs.Refusals as checks;
ghost use Rattle.tf_core.specs.Chain.{all_added};
ghost use Rattle.tf_core.specs.Sources.{AreNamedOnce, catalogued};

use crate::index::Index;
use crate::ready::{Prepared, Step};
use std::alloc::Global;
use tf_config::{Catalogue, ConfigError, check_config};
use tf_model::{Config, List, OutOfMemory, Text};

/// The index with a number.
pub fn index_at<'a>(indices: &'a [Index], steps: &'a [Prepared], at: usize) -> Option<&'a Index>
    ensures { option_copied result ≡ slice_get (indices.now ++ all_added steps.now) at }
{
    if at < indices.len() {
        indices.get(at)
    } else {
        made_at(steps, at - indices.len())
    }
}

fn made_at(steps: &[Prepared], at: usize) -> Option<&Index>
    ensures { option_copied result ≡ slice_get (all_added steps.now) at }
{
    let mut left = at;
    for prepared in steps {
        if let Step::Index(index) = &prepared.step {
            if left == 0 {
                return Some(index);
            }
            left -= 1;
        }
    }
    None
}

/// The number of the index with a name.
pub fn number_of(indices: &[Index], steps: &[Prepared], name: &Text) -> Option<u64>
    ensures { result ≡ spec.number_of name.now (indices.now ++ all_added steps.now) }
{
    match number_in(indices, name) {
        Some(number) => Some(number),
        None => number_made(steps, name, indices.len() as u64),
    }
}

/// The number of the index with a name, among these.
pub fn number_in(indices: &[Index], name: &Text) -> Option<u64>
    ensures { result ≡ spec.number_of name.now indices.now }
{
    for (at, index) in indices.iter().enumerate() {
        if *name == *index.name() {
            return Some(at as u64);
        }
    }
    None
}

/// What configurations see of indices.
pub fn catalogue_of(alloc: Global, indices: &[Index]) -> Result<Catalogue, OutOfMemory>
    requires { AreNamedOnce indices.now }
    ensures { IfOk result (λ catalogue. catalogue ≡ catalogued indices.now) }
{
    let mut catalogue = Catalogue::new(alloc);
    for index in indices {
        catalogue.add(index.name().copy(alloc)?, index.share_mapping()?)?;
    }
    Ok(catalogue)
}

/// Whether a configuration passes its checks over these indices.
pub fn passes(alloc: Global, indices: &[Index], config: &Config) -> Result<bool, OutOfMemory>
    requires { AreNamedOnce indices.now }
    ensures { IfOk result (λ passes. passes ≡ checks.passes (catalogued indices.now) config.now) }
{
    let catalogue = catalogue_of(alloc, indices)?;
    match check_config(alloc, config, &catalogue) {
        Ok(()) => Ok(true),
        Err(ConfigError::Memory) => Err(OutOfMemory),
        Err(_) => Ok(false),
    }
}

fn number_made(steps: &[Prepared], name: &Text, first: u64) -> Option<u64>
    requires { first < 2 ^ 63 }
    ensures { result ≡ option_map (λ n. first + n) (spec.number_of name.now (all_added steps.now)) }
{
    let mut at = first;
    for prepared in steps {
        if let Step::Index(index) = &prepared.step {
            if *name == *index.name() {
                return Some(at);
            }
            at += 1;
        }
    }
    None
}
