// What a poll of a rendering answers.
use hk_base::Text;
use hk_chain::Fault;

/// What a poll of a rendering answers.
#[derive(Drop)]
pub enum RenderStep {
    /// The pages of the open pairs are wanted.
    Ask,
    /// The text is whole.
    Text(Text),
    Fail(Fault),
}
