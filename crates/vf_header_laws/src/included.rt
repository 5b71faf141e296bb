//! What the files of a unit that was expanded consist of: laws, each the contract of a public function with an empty body.
//!
//! Laws: `includes_are_closed`: each file of a unit that was expanded consists of files of the unit that consist of
//! its files alone; `headers_are_closed`: those of a header are headers, so none consists of the unit's own file;
//! `files_have_their_own_numbers`: no number stands twice among the files of a unit, where the files of two paths
//! have two numbers.

ghost use Rattle.vf_header_laws.specs.included.Closed.{FilesHaveTheirOwnNumbers, HeadersAreClosed, IncludesAreClosed};

/// Each file of a unit that was expanded consists of files that consist of its files alone.
pub fn includes_are_closed()
    ensures { IncludesAreClosed }
{}

/// Each file of which a header of a unit consists is a header of the unit.
pub fn headers_are_closed()
    ensures { HeadersAreClosed }
{}

/// The files of a unit have numbers of their own, where files are told apart.
pub fn files_have_their_own_numbers()
    ensures { FilesHaveTheirOwnNumbers }
{}
