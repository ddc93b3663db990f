// An element in the making.
use answer::text::Text;

// The longest element.
pub(crate) const ROOM: usize = 1147;

pub(crate) type Element = Text<ROOM>;
