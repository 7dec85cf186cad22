//! Worked examples. The check computes them from the definitions, so that a reader can see what these mean.
ghost use Rattle.nut_client.specs.examples.Examples.{CommandLineExamples, RunExamples};

/// States worked examples and does nothing when called: what some command lines ask for, and what some runs ask and
/// print.
pub fn worked_examples()
    ensures lines { CommandLineExamples }
    ensures runs { RunExamples }
{}
