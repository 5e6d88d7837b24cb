//! Laws of the definitions in specs/. Each call does nothing, and its clause is the law.
ghost use Rattle.hierarchy.specs.Laws.{PathsDiffer, DepthSuffices};

/// Different paths of placed models have different texts.
pub fn paths_differ()
    ensures { PathsDiffer }
{}

/// The flat elements of a sound library are all those of its main model: a greater depth gives no others.
pub fn depth_suffices()
    ensures { DepthSuffices }
{}
