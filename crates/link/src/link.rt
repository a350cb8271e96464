// A link holds an engine and what has come of the line that has not ended. It has no model, since its engine has none.
ghost use Rattle.std.specs.Prelude.{◌≤◌, length};

use super::held::Held;
use machine::Engine;

#[derive(Drop)]
pub struct Link<S> {
    pub(crate) engine: Engine<S>,
    pub(crate) held: Held,
    ghost few: { length held ≤ 13 },
}
