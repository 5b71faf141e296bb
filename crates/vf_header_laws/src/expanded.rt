//! The headers of a unit that was expanded consist of headers: a law, the contract of a public function with an empty body.
//!
//! Laws: `expanded_headers_consist_of_headers`: where the files of two paths have two numbers, each header of a unit
//! that was expanded meets the premise of `vf_header_laws::c_names`, that it consists of headers alone and of all
//! that these consist of.

ghost use Rattle.vf_header_laws.specs.expanded.Expanded.{ExpandedHeadersConsistOfHeaders};

/// Each header of a unit that was expanded consists of headers alone, and of all that these consist of.
pub fn expanded_headers_consist_of_headers()
    ensures { ExpandedHeadersConsistOfHeaders }
{}
