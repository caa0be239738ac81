// The worked examples of the formats, as one theorem.
#![tactic(auto)]

ghost use Rattle.examples.specs.Examples.{Worked};

pub fn examples_stand()
    ensures { Worked }
{}
