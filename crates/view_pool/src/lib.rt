//! Views of reducers, kits of them, and the pool of kits.
#![tactic(auto)]

mod either_view;
mod flat_view;
mod kit;
mod plain_view;
mod pool;
mod short_value;
mod view;

pub use either_view::EitherView;
pub use flat_view::FlatView;
pub use kit::Kit;
pub use plain_view::PlainView;
pub use pool::{KitSource, Pool};
pub use short_value::{ShortValue, let_go_short};
pub use view::View;
