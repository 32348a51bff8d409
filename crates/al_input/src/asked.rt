use al_base::{OperatorState, Text};
use al_ids::AlarmKey;
use al_model::Request;

/// What a body asks for.
#[derive(Debug, Drop)]
pub enum Asked {
    /// A request, as it stands.
    Whole(Request),
    /// To take down what an operator says of an alarm of the list. Who the operator is, no body says.
    Operate {
        key: AlarmKey,
        /// `None0`, `Ack` or `Closed`.
        state: OperatorState,
        text: Option<Text>,
    },
}
