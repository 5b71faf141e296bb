//! Heads and nodes.

ghost use Rattle.std.specs.Prelude.{◌≡◌, ◌↔◌, ◌<◌, ℕ, ℤ, pos, length, All, IsTrue, MatchOption};
ghost use Rattle.vf_table.specs.Tables.{PartsAreBelow, IsInjective, IsOfIntegers, IsInteger, IsNumber, IsPlus, AreClashing, HaveClashingHeads};

/// What stands above the parts of a term.
#[derive(Clone, Copy, PartialEq, Eq, Debug)]
pub enum Head {
    /// A whole number.
    Number(i128),
    /// A truth value.
    Truth(bool),
    /// The null pointer.
    Null,
    /// A function, by its number among the functions of the question.
    Function(u32),
    /// A constructor of a datatype, by its number among the constructors of the question.
    Constructor(u32),
    /// A sum and a number, its two parts.
    Plus,
    /// Any other head of integer terms, by its number.
    Integer(u32),
    /// Any other head of terms that are not integers, by its number.
    Other(u32),
}

/// A term of a table: its head, and its parts by their numbers.
#[derive(Debug, Drop)]
pub struct Node {
    pub head: Head,
    pub parts: Vec<u32>,
}

/// Whether each number of a list is below another.
fn are_below(parts: &[u32], n: usize) -> bool
    ensures { IsTrue result ↔ All (λ part. part < n) parts.now }
{
    for part in parts {
        if *part as usize >= n {
            return false;
        }
    }
    true
}

/// Whether the parts of each term are terms of the table.
pub fn parts_are_below(nodes: &[Node]) -> bool
    ensures { IsTrue result ↔ PartsAreBelow nodes.now (length nodes.now) }
{
    for node in nodes {
        if !are_below(&node.parts, nodes.len()) {
            return false;
        }
    }
    true
}

/// Whether two terms have one head and as many parts.
pub fn have_one_head(m: &Node, n: &Node) -> bool
    ensures { IsTrue result ↔ (m.now.head ≡ n.now.head) × (length m.now.parts.items ≡ length n.now.parts.items) }
{
    m.head == n.head && m.parts.len() == n.parts.len()
}

/// Whether equal terms with this head have equal parts.
pub fn is_injective(head: Head) -> bool
    ensures { IsTrue result ↔ IsInjective head }
{
    match head {
        Head::Constructor(_) => true,
        _ => false,
    }
}

/// Whether the terms with this head have numbers for their values.
fn is_of_integers(head: Head) -> bool
    ensures { IsTrue result ↔ IsOfIntegers head }
{
    match head {
        Head::Number(_) => true,
        Head::Plus => true,
        Head::Integer(_) => true,
        _ => false,
    }
}

/// Whether a term is an integer term of the table.
pub fn is_integer(nodes: &[Node], x: u32) -> bool
    ensures { IsTrue result ↔ IsInteger nodes.now x }
{
    match nodes.get(x as usize) {
        Some(node) => is_of_integers(node.head),
        None => false,
    }
}

/// The number that a term is, if it is one.
pub fn number_at(nodes: &[Node], x: u32) -> Option<i128>
    ensures { MatchOption result ((c : ℤ) → IsNumber nodes.now x c → ⊥) (λ c. IsNumber nodes.now x c) }
{
    match nodes.get(x as usize)?.head {
        Head::Number(c) => Some(c),
        _ => None,
    }
}

/// Whether a term is the number 0.
pub fn is_zero(nodes: &[Node], x: u32) -> bool
    ensures { IsTrue result ↔ IsNumber nodes.now x (pos 0) }
{
    match nodes.get(x as usize) {
        Some(node) => match node.head {
            Head::Number(c) => c == 0,
            _ => false,
        },
        None => false,
    }
}

/// A sum: the term that a number is added to, and the number.
#[derive(Clone, Copy, Debug)]
pub struct Shift {
    pub part: u32,
    pub number: i128,
}

/// Whether a head is that of a sum and a number.
fn is_plus(head: Head) -> bool
    ensures { IsTrue result ↔ (head ≡ Head.Plus) }
{
    match head {
        Head::Plus => true,
        _ => false,
    }
}

/// The sum of a term and a number that a term is, if it is one.
pub fn shift_at(nodes: &[Node], a: u32) -> Option<Shift>
    ensures { MatchOption result ((q : ℕ) (c : ℤ) → IsPlus nodes.now a q c → ⊥) (λ s. IsPlus nodes.now a s.part s.number) }
{
    let node = nodes.get(a as usize)?;
    if !is_plus(node.head) {
        return None;
    }
    if node.parts.len() != 2 {
        return None;
    }
    let number = number_at(nodes, node.parts[1])?;
    Some(Shift {
        part: node.parts[0],
        number,
    })
}

/// Whether no two equal terms have these heads, the second being no null.
fn are_clashing(m: Head, n: Head) -> bool
    ensures { IsTrue result ↔ AreClashing m n }
{
    match (m, n) {
        (Head::Constructor(c), Head::Constructor(d)) => c != d,
        (Head::Number(a), Head::Number(b)) => a != b,
        (Head::Truth(a), Head::Truth(b)) => a != b,
        (Head::Function(g), Head::Function(h)) => g != h,
        (Head::Null, Head::Function(_)) => true,
        _ => false,
    }
}

/// Whether the heads of two terms clash.
pub fn have_clashing_heads(nodes: &[Node], x: u32, y: u32) -> bool
    ensures { IsTrue result ↔ HaveClashingHeads nodes.now x y }
{
    match nodes.get(x as usize) {
        Some(m) => match nodes.get(y as usize) {
            Some(n) => are_clashing(m.head, n.head),
            None => false,
        },
        None => false,
    }
}
