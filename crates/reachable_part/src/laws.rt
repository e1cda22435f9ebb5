//! The laws, as the contract of a function that does nothing.

ghost use Rattle.reachable_part.specs.Laws.{
  NoneCarriesOver,
  ReachedCarriesOver,
  SolutionsCarryOver,
  TablesAreCarried,
};

/// A table of the smaller system and one of the larger system that mean the same are solutions
/// together; each table has such a counterpart; so the one system has no solution exactly where the
/// other has none. And the larger system reaches only what states of the smaller one stand for.
pub fn solutions_carry_over()
    ensures solutions { SolutionsCarryOver }
    ensures tables { TablesAreCarried }
    ensures none { NoneCarriesOver }
    ensures reached { ReachedCarriesOver }
{}
