//! A depth-first search of all vertices.
//!
//! A vertex is open while it is on the path, and done once all that it reads is done. What leads to an
//! open vertex is cut. The order is that in which vertices are done.
ghost use Rattle.std.specs.Prelude.{◌≡◌, ◌+◌, ◌-◌, ◌<◌, ◌≤◌, ◌++◌, [], ◌∷◌, false, length, map, slice_set, slice_index, slice_index_or, replicate, OnOk, IfOk, IfSome, IsNone};
ghost use Rattle.graph.specs.Rows.{row, IsLast};
ghost use Rattle.graph.specs.Search.{IsSearched};
ghost use Rattle.graph.specs.Orders.{IsOrder, IsCycle};

use crate::deciding::Decisions;
use crate::turning::keep_first;
use crate::{CutReads, Graph};
use std::alloc::Global;
use tmr_base::OutOfMemory;

/// What the search knows of a vertex.
#[derive(Clone, Copy, Debug, PartialEq, Eq, Drop)]
enum Mark {
    New,
    Open,
    Done,
}

/// Where the search stands: a mark for each vertex, which of its reads are cut as far as they are
/// decided, the path from the root, and the vertices that are done, in order.
#[derive(Drop)]
struct Walk {
    marks: Vec<Mark>,
    cut: Decisions,
    path: Vec<u32>,
    order: Vec<u32>,
}

/// What the search ends with: the vertices in the order in which they were done, and which reads are cut.
#[derive(Drop)]
pub struct Searched {
    pub order: Vec<u32>,
    pub cut: CutReads,
}

/// What a search from some roots ends with, and the first cycle that it met: none where it is empty.
#[derive(Drop)]
pub struct Walked {
    pub order: Vec<u32>,
    pub cut: CutReads,
    pub cycle: Vec<u32>,
}

/// What is no vertex is done.
fn mark_of(marks: &[Mark], x: u32) -> Mark
    ensures { result ≡ slice_index_or marks.now x Mark.Done }
{
    match marks.get(x as usize) {
        Some(mark) => *mark,
        None => Mark::Done,
    }
}

/// The end of the path.
fn top_of(path: &[u32]) -> Option<u32>
    ensures none { IsNone result → path.now ≡ [] }
    ensures some { IfSome result (λ x. IsLast path.now x) }
{
    match path.last() {
        Some(top) => Some(*top),
        None => None,
    }
}

/// A new vertex goes on the path.
fn open(walk: &mut Walk, x: u32) -> Result<(), OutOfMemory>
    requires { x < length walk.old.marks.items }
    ensures marks { OnOk result (walk.new.marks.items ≡ slice_set walk.old.marks.items x Mark.Open) }
    ensures cut { OnOk result (walk.new.cut ≡ walk.old.cut) }
    ensures path { OnOk result (walk.new.path.items ≡ walk.old.path.items ++ x ∷ []) }
    ensures order { OnOk result (walk.new.order.items ≡ walk.old.order.items) }
{
    walk.path.push(x)?;
    walk.marks[x as usize] = Mark::Open;
    Ok(())
}

/// The next read of x is decided.
fn decide(walk: &mut Walk, x: u32, is_cut: bool)
    requires vertex { x < length walk.old.cut.rows }
    requires room { length (row walk.old.cut.rows x) < slice_index walk.old.cut.room x }
    ensures marks { walk.new.marks.items ≡ walk.old.marks.items }
    ensures cut { walk.new.cut.rows ≡ slice_set walk.old.cut.rows x (row walk.old.cut.rows x ++ is_cut ∷ []) }
    ensures room { walk.new.cut.room ≡ walk.old.cut.room }
    ensures path { walk.new.path.items ≡ walk.old.path.items }
    ensures order { walk.new.order.items ≡ walk.old.order.items }
{
    walk.cut.decide(x, is_cut);
}

/// The next read of x is kept, and y, which it names, goes on the path.
fn descend(walk: &mut Walk, x: u32, y: u32) -> Result<(), OutOfMemory>
    requires reader { x < length walk.old.cut.rows }
    requires room { length (row walk.old.cut.rows x) < slice_index walk.old.cut.room x }
    requires read { y < length walk.old.marks.items }
    ensures marks { OnOk result (walk.new.marks.items ≡ slice_set walk.old.marks.items y Mark.Open) }
    ensures cut { OnOk result (walk.new.cut.rows ≡ slice_set walk.old.cut.rows x (row walk.old.cut.rows x ++ false ∷ [])) }
    ensures room { OnOk result (walk.new.cut.room ≡ walk.old.cut.room) }
    ensures path { OnOk result (walk.new.path.items ≡ walk.old.path.items ++ y ∷ []) }
    ensures order { OnOk result (walk.new.order.items ≡ walk.old.order.items) }
{
    decide(walk, x, false);
    open(walk, y)
}

/// The top of the path goes to the order.
fn finish(walk: &mut Walk, x: u32) -> Result<(), OutOfMemory>
    requires within { x < length walk.old.marks.items }
    requires top { IsLast walk.old.path.items x }
    ensures marks { OnOk result (walk.new.marks.items ≡ slice_set walk.old.marks.items x Mark.Done) }
    ensures cut { OnOk result (walk.new.cut ≡ walk.old.cut) }
    ensures path { OnOk result (walk.old.path.items ≡ walk.new.path.items ++ x ∷ []) }
    ensures order { OnOk result (walk.new.order.items ≡ walk.old.order.items ++ x ∷ []) }
{
    walk.order.push(x)?;
    let _ = walk.path.pop();
    walk.marks[x as usize] = Mark::Done;
    Ok(())
}

/// What x reads next, if something is left.
fn next_read(graph: &Graph, cut: &Decisions, x: u32) -> Option<u32>
    requires vertex { x < length graph.now }
    requires within { x < length cut.now.rows }
    ensures none { IsNone result → length (row graph.now x) ≤ length (row cut.now.rows x) }
    ensures some { IfSome result (λ y. (length (row cut.now.rows x) < length (row graph.now x)) × (slice_index (row graph.now x) (length (row cut.now.rows x)) ≡ y)) }
{
    let row = graph.row(x);
    let next = cut.decided(x);
    if next < row.len() {
        Some(row[next])
    } else {
        None
    }
}

/// The search before its first move.
fn begin(alloc: Global, graph: &Graph, count: usize) -> Result<Walk, OutOfMemory>
    requires { count ≡ length graph.now }
    ensures marks { IfOk result (λ walk. walk.marks.items ≡ replicate count Mark.New) }
    ensures cut { IfOk result (λ walk. walk.cut.rows ≡ replicate count []) }
    ensures room { IfOk result (λ walk. walk.cut.room ≡ map length graph.now) }
    ensures path { IfOk result (λ walk. walk.path.items ≡ []) }
    ensures order { IfOk result (λ walk. walk.order.items ≡ []) }
{
    Ok(Walk {
        marks: vec![in alloc; Mark::New; count]?,
        cut: graph.undecided(alloc)?,
        path: Vec::new(alloc),
        order: Vec::new(alloc),
    })
}

/// A depth-first search with the first vertices as roots in ascending order, each following its reads in
/// order.
pub(crate) fn search_from(alloc: Global, graph: &Graph, roots: u32) -> Result<Walked, OutOfMemory>
    requires { roots ≤ length graph.now }
    ensures searched { IfOk result (λ w. roots ≡ length graph.now → IsSearched graph.now w.order.items w.cut) }
    ensures order { IfOk result (λ w. length w.cycle.items ≡ 0 → IsOrder graph.now roots w.order.items) }
    ensures cycle { IfOk result (λ w. 0 < length w.cycle.items → IsCycle graph.now roots w.cycle.items) }
{
    let mut walk = begin(alloc, graph, graph.count())?;
    let mut cycle = Vec::new(alloc);
    let mut root = 0;
    'moves: loop {
        let Some(top) = top_of(&walk.path) else {
            if root == roots {
                return Ok(Walked {
                    order: walk.order,
                    cut: CutReads::new(walk.cut),
                    cycle,
                });
            }
            match mark_of(&walk.marks, root) {
                Mark::New => open(&mut walk, root)?,
                _ => root += 1,
            }
            continue;
        };
        let Some(y) = next_read(graph, &walk.cut, top) else {
            finish(&mut walk, top)?;
            continue;
        };
        match mark_of(&walk.marks, y) {
            Mark::New => descend(&mut walk, top, y)?,
            Mark::Done => decide(&mut walk, top, false),
            Mark::Open => {
                keep_first(&mut cycle, &walk.path, y)?;
                decide(&mut walk, top, true);
            }
        }
    }
}

/// All vertices in an order, and which reads are cut: a vertex stands behind all that it reads uncut, and uncut reads lead from the reader
/// of a cut read to the vertex read.
///
/// They are found by a depth-first search. Which of several orders and cuts it ends with is no clause.
pub fn search(alloc: Global, graph: &Graph, count: u32) -> Result<Searched, OutOfMemory>
    requires { count ≡ length graph.now }
    ensures { IfOk result (λ s. IsSearched graph.now s.order.items s.cut) }
{
    let walked = search_from(alloc, graph, count)?;
    Ok(Searched {
        order: walked.order,
        cut: walked.cut,
    })
}
