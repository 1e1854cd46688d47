// How transforms stand.
use tf_model::State;

/// How a transform stands.
#[derive(Drop)]
pub struct Standing {
    pub state: State,
    /// Whether it is a batch transform whose checkpoint is finished.
    pub is_over: bool,
}
