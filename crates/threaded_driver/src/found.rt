//! What a worker without a strand finds.
use right_strands::run::Run;
use view_pool::View;
use worker_seats::held::Held;
use worker_seats::kits::Stocked;

/// The run is over and the worker has left, there is nothing to do yet, or a strand to go on with: one that the worker held before,
/// or one that it got by a fold or a steal.
#[derive(Drop)]
pub enum Found<J: Run + Stocked, V: View> {
    Left,
    Nothing,
    Own(Held<J, V>),
    Folded(Held<J, V>),
    Stolen(Held<J, V>),
}
