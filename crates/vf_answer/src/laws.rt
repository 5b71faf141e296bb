//! What is shown of questions.

ghost use Rattle.vf_answer.specs.Answers.{GoalsAreCounted};

/// The terms of a question are as many whether its goal is counted or the goal's negation.
pub fn goals_are_counted()
    ensures { GoalsAreCounted }
{}
