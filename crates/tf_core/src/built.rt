// The forms that are built.
ghost use Rattle.std.specs.Prelude.{◌≡◌};
ghost use Rattle.tf_core.specs.Built as spec;
ghost use Rattle.tf_model.specs.Scratch as scratch;

use tf_model::{Config, Shape};

/// Whether a configuration is a pivot that keeps all its rows.
pub fn is_built_config(config: &Config) -> bool
    ensures { result ≡ spec.is_built_config config.now }
{
    is_pivot(&config.shape) && config.retention.is_none()
}

fn is_pivot(shape: &Shape) -> bool
    ensures { result ≡ scratch.is_pivot shape.now }
{
    match shape {
        Shape::Pivot { .. } => true,
        Shape::Latest { .. } => false,
    }
}
