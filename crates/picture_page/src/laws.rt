//! Facts about pictures. Each function does nothing: its contract is the fact.

ghost use Rattle.picture_page.specs.Examples.{EachExampleHolds};

/// Examples: what is seen of some pictures.
pub fn examples_hold()
    ensures { EachExampleHolds }
{}
