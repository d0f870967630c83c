// Laws of the definitions. Their contracts are what counts; there is nothing to do.

ghost use Rattle.core_ast.specs.GoodLaws.{BrokenWhereNotGood, SomeRuleIsFirst, OneRuleIsFirst, PartsHaveNoMoreNodes};

/// A rule is broken somewhere if and only if the module isn't good.
pub fn broken_where_not_good()
    ensures { BrokenWhereNotGood }
{}

/// Where a module isn't good, there is a first broken rule.
pub fn some_rule_is_first()
    ensures { SomeRuleIsFirst }
{}

/// There is at most one first broken rule.
pub fn one_rule_is_first()
    ensures { OneRuleIsFirst }
{}

/// No part of an expression has more nodes than the whole.
pub fn parts_have_no_more_nodes()
    ensures { PartsHaveNoMoreNodes }
{}
