//! Laws of courses. Each function does nothing; its contract is the law.

ghost use Rattle.vf_asking.specs.Runs.{CoursesAreDetermined, CoursesOnlyAppend, RightCoursesAreDetermined};

/// A run of a course puts entries at the end of the journal and changes no other.
pub fn courses_only_append<A>()
    ensures { CoursesOnlyAppend A }
{}

/// The answers determine the result of a course.
pub fn courses_are_determined<A>()
    ensures { CoursesAreDetermined A }
{}

/// So right answers do, since they are determined themselves.
pub fn right_courses_are_determined<A>()
    ensures { RightCoursesAreDetermined A }
{}
