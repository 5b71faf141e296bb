//! Laws of unknown sorts. Each function does nothing; its contract is the law.

ghost use Rattle.vf_sorts.specs.Laws.{SettlingAgrees};

/// Where nothing unknown stands in what is known, there are sorts that agree with it: those by which sorts are
/// settled.
pub fn settling_agrees()
    ensures { SettlingAgrees }
{}
