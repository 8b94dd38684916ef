//! The fragment tree that the nodes of a document describe.

ghost use Rattle.std.specs.Prelude.{◌≡◌, ◌⊎◌, ◌≤◌, ◌+◌, ◌++◌, true, [], length, map, codes, Some, IfOk, IfErr};
ghost use Rattle.std.specs.List.{AllByRecursion};
ghost use Rattle.terms.specs.Cond.{IsCondOf};
ghost use Rattle.toml.specs.View.{view};
ghost use Rattle.catalog.specs.Below.{branches_seen, groups_seen, AreRows, AreCols, RefusesSite, IsLeafFault, RefusesRows, RefusesBranches, RefusesCols, RefusesGroups};
ghost use Rattle.catalog.specs.Describes.{kinds_in, site_numbered, in_order, Describes, AreBranches, AreGroups};
ghost use Rattle.catalog.specs.Frame.{frame_of};
ghost use Rattle.catalog.specs.Path.{paths, paths_by_rows, paths_by_cols, branch_conds, group_columns};
ghost use Rattle.catalog.specs.Node.{SplitByRows, SplitByCols, form_of};
ghost use Rattle.catalog.specs.NodeBreaks.{NodeBreaks, BranchesBreak, BelowBreak, IsLeafTooMany};
ghost use Rattle.catalog.specs.Refuses.{Refuses, is_of_text};
ghost use Rattle.catalog.specs.Split as spec;
ghost use Rattle.catalog.specs.Split.{tree_of, tree_branch, tree_group};
ghost use Rattle.catalog.specs.Valid.{IsValidWithin, AreValidBranches, AreValidGroups};

use crate::fault::Rule;
use crate::form::{Form, form_of_node};
use crate::frame::{Frame, in_order};
use crate::groups::named_columns;
use crate::split::{Branch, Group, Split};
use crate::trail::{ListItem, Trail};
use crate::wheres::{branch_conds, require_exact};
use reader::read_conds::one_list_of_conds;
use std::alloc::Global;
use terms::cond::{Cond, Conds};
use terms::copy::{TryCopy, copy_all};
use terms::memory::Memory;
use terms::seq::Seq;
use toml::Value;

/// The most leaves of a relation.
pub const LEAVES: usize = 32;

/// The most splits on the way to a leaf.
pub const SPLITS: usize = 4;

/// A place in a fragment tree: what a node there may speak of.
#[derive(Clone, Copy)]
pub(crate) struct Place<'a> {
    pub frame: &'a Frame<'a>,
    /// How many splits there may be on a way from here.
    pub splits: usize,
    /// The conditions on the way to here.
    pub way: &'a [Cond],
    /// The columns beside the key that are left here.
    pub within: &'a [usize],
}

impl<'a> Place<'a> {
    /// The tree that a node describes here; beside the key of its split the node has the one that its
    /// place asks for. The leaves are counted on.
    #[cycle(nodes)]
    pub(crate) fn tree(
        &self,
        beside: &str,
        node: &Value,
        leaves: &mut usize,
        trail: &mut Trail,
    ) -> Result<Split, Rule>
        requires way_fits { AllByRecursion (IsCondOf (kinds_in (frame_of self.now.frame.now))) self.now.way.now }
        requires few_leaves { leaves.old ≤ 32 }
        ensures found { IfOk result (λ split. Describes (frame_of self.now.frame.now) self.now.splits self.now.way.now self.now.within.now beside.now (view node.now) (tree_of split)) }
        ensures valid { IfOk result (λ split. IsValidWithin (kinds_in (frame_of self.now.frame.now)) self.now.way.now self.now.within.now (tree_of split)) }
        ensures counted { IfOk result (λ split. leaves.new ≡ leaves.old + length (paths (tree_of split))) }
        ensures few { IfOk result (λ split. leaves.new ≤ 32) }
        ensures none { IfErr result (λ rule. Refuses (frame_of self.now.frame.now) self.now.splits self.now.way.now self.now.within.now beside.now (view node.now) leaves.old rule) }
        ensures breaks { IfErr result (λ rule. is_of_text rule ≡ true → NodeBreaks rule (frame_of self.now.frame.now) self.now.splits self.now.way.now self.now.within.now (form_of beside.now (view node.now)) leaves.old) }
    {
        match form_of_node(beside, node) {
            Form::AtSite(name) => Ok(Split::Leaf(self.site(name, leaves)?)),
            Form::ByRows(nodes) => {
                let branches = self.by_rows(nodes, leaves, trail)?;
                Ok(Split::ByRows(branches))
            }
            Form::ByCols(nodes) => {
                let groups = self.by_cols(nodes, leaves, trail)?;
                Ok(Split::ByCols(groups))
            }
            Form::Ill => Err(Rule::Field),
        }
    }

    /// The site of this name, where one leaf more is.
    fn site(&self, name: &str, leaves: &mut usize) -> Result<usize, Rule>
        requires few_leaves { leaves.old ≤ 32 }
        ensures found { IfOk result (λ site. site_numbered (frame_of self.now.frame.now).sites name.now ≡ Some site) }
        ensures counted { IfOk result (λ site. leaves.new ≡ leaves.old + 1) }
        ensures few { IfOk result (λ site. leaves.new ≤ 32) }
        ensures none { IfErr result (λ rule. RefusesSite (frame_of self.now.frame.now) name.now leaves.old rule) }
        ensures fault { IfErr result (λ rule. IsLeafFault (frame_of self.now.frame.now) name.now leaves.old rule) }
    {
        let Some(site) = self.frame.site(name) else {
            return Err(Rule::NoSite);
        };
        if *leaves >= LEAVES {
            return Err(Rule::Limit);
        }
        *leaves += 1;
        Ok(site)
    }

    /// The branches of a split by rows: the conditions of all first, then the cells, then what is below.
    #[cycle(nodes)]
    fn by_rows(
        &self,
        nodes: &[Value],
        leaves: &mut usize,
        trail: &mut Trail,
    ) -> Result<Vec<Branch>, Rule>
        requires way_fits { AllByRecursion (IsCondOf (kinds_in (frame_of self.now.frame.now))) self.now.way.now }
        requires few_leaves { leaves.old ≤ 32 }
        ensures found { IfOk result (λ branches. AreRows (frame_of self.now.frame.now) self.now.splits self.now.way.now self.now.within.now (map view nodes.now) (branches_seen branches.items)) }
        ensures valid { IfOk result (λ branches. IsValidWithin (kinds_in (frame_of self.now.frame.now)) self.now.way.now self.now.within.now (spec.ByRows (branches_seen branches.items))) }
        ensures counted { IfOk result (λ branches. leaves.new ≡ leaves.old + length (paths_by_rows (branches_seen branches.items))) }
        ensures few { IfOk result (λ branches. leaves.new ≤ 32) }
        ensures none { IfErr result (λ rule. RefusesRows (frame_of self.now.frame.now) self.now.splits self.now.way.now self.now.within.now (map view nodes.now) leaves.old rule) }
        ensures breaks { IfErr result (λ rule. is_of_text rule ≡ true → NodeBreaks rule (frame_of self.now.frame.now) self.now.splits self.now.way.now self.now.within.now (SplitByRows (map view nodes.now)) leaves.old) }
    {
        // What a refusal says rests on this law.
        one_list_of_conds();
        if self.splits == 0 {
            return Err(Rule::Limit);
        }
        let conds = branch_conds(self.frame, self.within, nodes, trail)?;
        require_exact(self.frame, self.way, conds.as_slice())?;
        let below = Place {
            frame: self.frame,
            splits: self.splits - 1,
            way: self.way,
            within: self.within,
        };
        below.branches(nodes, conds.as_slice(), leaves, trail)
    }

    /// The branches with these conditions.
    #[cycle(nodes)]
    fn branches(
        &self,
        nodes: &[Value],
        conds: &[Conds],
        leaves: &mut usize,
        trail: &mut Trail,
    ) -> Result<Vec<Branch>, Rule>
        requires way_fits { AllByRecursion (IsCondOf (kinds_in (frame_of self.now.frame.now))) self.now.way.now }
        requires conds_fit { AllByRecursion (λ cs. AllByRecursion (IsCondOf (kinds_in (frame_of self.now.frame.now))) cs) conds.now }
        requires same_length { length conds.now ≡ length nodes.now }
        requires few_leaves { leaves.old ≤ 32 }
        ensures found { IfOk result (λ branches. AreBranches (frame_of self.now.frame.now) self.now.splits self.now.way.now self.now.within.now (map view nodes.now) (branches_seen branches.items)) }
        ensures conds { IfOk result (λ branches. branch_conds (branches_seen branches.items) ≡ conds.now) }
        ensures valid { IfOk result (λ branches. AreValidBranches (kinds_in (frame_of self.now.frame.now)) self.now.way.now self.now.within.now (branches_seen branches.items)) }
        ensures counted { IfOk result (λ branches. leaves.new ≡ leaves.old + length (paths_by_rows (branches_seen branches.items))) }
        ensures few { IfOk result (λ branches. leaves.new ≤ 32) }
        ensures none { IfErr result (λ rule. RefusesBranches (frame_of self.now.frame.now) self.now.splits self.now.way.now self.now.within.now (map view nodes.now) conds.now leaves.old rule) }
        ensures breaks { IfErr result (λ rule. is_of_text rule ≡ true → BranchesBreak self.now.splits rule (frame_of self.now.frame.now) self.now.way.now self.now.within.now (map view nodes.now) conds.now ⊎ IsLeafTooMany rule self.now.splits (codes "where") (map view nodes.now) leaves.old) }
    {
        one_list_of_conds();
        let mut branches = Vec::new(self.frame.alloc);
        for i in 0..nodes.len() {
            trail.enter(ListItem::Branch(i));
            let next = self.branch(&nodes[i], &conds[i], leaves, trail)?;
            trail.leave();
            branches.push(next)?;
        }
        Ok(branches)
    }

    /// A branch with these conditions.
    #[cycle(nodes)]
    fn branch(
        &self,
        node: &Value,
        conds: &Conds,
        leaves: &mut usize,
        trail: &mut Trail,
    ) -> Result<Branch, Rule>
        requires way_fits { AllByRecursion (IsCondOf (kinds_in (frame_of self.now.frame.now))) self.now.way.now }
        requires conds_fit { AllByRecursion (IsCondOf (kinds_in (frame_of self.now.frame.now))) conds.now }
        requires few_leaves { leaves.old ≤ 32 }
        ensures found { IfOk result (λ branch. Describes (frame_of self.now.frame.now) self.now.splits (self.now.way.now ++ conds.now) self.now.within.now (codes "where") (view node.now) (tree_branch branch).tree) }
        ensures conds { IfOk result (λ branch. (tree_branch branch).conds ≡ conds.now) }
        ensures valid { IfOk result (λ branch. IsValidWithin (kinds_in (frame_of self.now.frame.now)) (self.now.way.now ++ conds.now) self.now.within.now (tree_branch branch).tree) }
        ensures counted { IfOk result (λ branch. leaves.new ≡ leaves.old + length (paths (tree_branch branch).tree)) }
        ensures few { IfOk result (λ branch. leaves.new ≤ 32) }
        ensures none { IfErr result (λ rule. Refuses (frame_of self.now.frame.now) self.now.splits (self.now.way.now ++ conds.now) self.now.within.now (codes "where") (view node.now) leaves.old rule) }
        ensures breaks { IfErr result (λ rule. is_of_text rule ≡ true → NodeBreaks rule (frame_of self.now.frame.now) self.now.splits (self.now.way.now ++ conds.now) self.now.within.now (form_of (codes "where") (view node.now)) leaves.old) }
    {
        let longer = joined(self.frame.alloc, self.way, conds.as_slice())?;
        let below = Place {
            frame: self.frame,
            splits: self.splits,
            way: longer.as_slice(),
            within: self.within,
        };
        let split = below.tree("where", node, leaves, trail)?;
        let conds = conds.copy()?;
        Ok(Branch { conds, split })
    }

    /// The groups of a split by columns: the names of all first, then what is below.
    #[cycle(nodes)]
    fn by_cols(
        &self,
        nodes: &[Value],
        leaves: &mut usize,
        trail: &mut Trail,
    ) -> Result<Vec<Group>, Rule>
        requires way_fits { AllByRecursion (IsCondOf (kinds_in (frame_of self.now.frame.now))) self.now.way.now }
        requires few_leaves { leaves.old ≤ 32 }
        ensures found { IfOk result (λ groups. AreCols (frame_of self.now.frame.now) self.now.splits self.now.way.now self.now.within.now (map view nodes.now) (groups_seen groups.items)) }
        ensures valid { IfOk result (λ groups. IsValidWithin (kinds_in (frame_of self.now.frame.now)) self.now.way.now self.now.within.now (spec.ByCols (groups_seen groups.items))) }
        ensures counted { IfOk result (λ groups. leaves.new ≡ leaves.old + length (paths_by_cols [] (groups_seen groups.items))) }
        ensures few { IfOk result (λ groups. leaves.new ≤ 32) }
        ensures none { IfErr result (λ rule. RefusesCols (frame_of self.now.frame.now) self.now.splits self.now.way.now self.now.within.now (map view nodes.now) leaves.old rule) }
        ensures breaks { IfErr result (λ rule. is_of_text rule ≡ true → NodeBreaks rule (frame_of self.now.frame.now) self.now.splits self.now.way.now self.now.within.now (SplitByCols (map view nodes.now)) leaves.old) }
    {
        if self.splits == 0 {
            return Err(Rule::Limit);
        }
        let named = named_columns(self.frame, self.within, nodes, trail)?;
        let below = Place {
            frame: self.frame,
            splits: self.splits - 1,
            way: self.way,
            within: self.within,
        };
        below.groups(nodes, named.as_slice(), leaves, trail)
    }

    /// The groups that name these columns.
    #[cycle(nodes)]
    fn groups(
        &self,
        nodes: &[Value],
        named: &[Seq<usize>],
        leaves: &mut usize,
        trail: &mut Trail,
    ) -> Result<Vec<Group>, Rule>
        requires way_fits { AllByRecursion (IsCondOf (kinds_in (frame_of self.now.frame.now))) self.now.way.now }
        requires same_length { length named.now ≡ length nodes.now }
        requires few_leaves { leaves.old ≤ 32 }
        ensures found { IfOk result (λ groups. AreGroups (frame_of self.now.frame.now) self.now.splits self.now.way.now (map view nodes.now) (groups_seen groups.items)) }
        ensures columns { IfOk result (λ groups. group_columns (groups_seen groups.items) ≡ map (in_order self.now.within.now) named.now) }
        ensures valid { IfOk result (λ groups. AreValidGroups (kinds_in (frame_of self.now.frame.now)) self.now.way.now (groups_seen groups.items)) }
        ensures counted { IfOk result (λ groups. leaves.new ≡ leaves.old + length (paths_by_cols [] (groups_seen groups.items))) }
        ensures few { IfOk result (λ groups. leaves.new ≤ 32) }
        ensures none { IfErr result (λ rule. RefusesGroups (frame_of self.now.frame.now) self.now.splits self.now.way.now (map view nodes.now) (map (in_order self.now.within.now) named.now) leaves.old rule) }
        ensures breaks { IfErr result (λ rule. is_of_text rule ≡ true → BelowBreak self.now.splits rule (frame_of self.now.frame.now) self.now.way.now (map view nodes.now) (map (in_order self.now.within.now) named.now) ⊎ IsLeafTooMany rule self.now.splits (codes "of") (map view nodes.now) leaves.old) }
    {
        one_list_of_conds();
        let mut groups = Vec::new(self.frame.alloc);
        for i in 0..nodes.len() {
            let columns = in_order(self.frame.alloc, self.within, named[i].as_slice())?;
            trail.enter(ListItem::Group(i));
            let next = self.group(&nodes[i], columns, leaves, trail)?;
            trail.leave();
            groups.push(next)?;
        }
        Ok(groups)
    }

    /// A group of these columns.
    #[cycle(nodes)]
    fn group(
        &self,
        node: &Value,
        columns: Vec<usize>,
        leaves: &mut usize,
        trail: &mut Trail,
    ) -> Result<Group, Rule>
        requires way_fits { AllByRecursion (IsCondOf (kinds_in (frame_of self.now.frame.now))) self.now.way.now }
        requires few_leaves { leaves.old ≤ 32 }
        ensures found { IfOk result (λ group. Describes (frame_of self.now.frame.now) self.now.splits self.now.way.now columns.items (codes "of") (view node.now) (tree_group group).tree) }
        ensures columns { IfOk result (λ group. (tree_group group).columns ≡ columns.items) }
        ensures valid { IfOk result (λ group. IsValidWithin (kinds_in (frame_of self.now.frame.now)) self.now.way.now columns.items (tree_group group).tree) }
        ensures counted { IfOk result (λ group. leaves.new ≡ leaves.old + length (paths (tree_group group).tree)) }
        ensures few { IfOk result (λ group. leaves.new ≤ 32) }
        ensures none { IfErr result (λ rule. Refuses (frame_of self.now.frame.now) self.now.splits self.now.way.now columns.items (codes "of") (view node.now) leaves.old rule) }
        ensures breaks { IfErr result (λ rule. is_of_text rule ≡ true → NodeBreaks rule (frame_of self.now.frame.now) self.now.splits self.now.way.now columns.items (form_of (codes "of") (view node.now)) leaves.old) }
    {
        let below = Place {
            frame: self.frame,
            splits: self.splits,
            way: self.way,
            within: columns.as_slice(),
        };
        let split = below.tree("of", node, leaves, trail)?;
        let columns = Seq::new(columns);
        Ok(Group { columns, split })
    }
}

/// The conditions, and more behind them.
fn joined(alloc: Global, conds: &[Cond], more: &[Cond]) -> Result<Vec<Cond>, Memory>
    ensures { IfOk result (λ all. all.items ≡ conds.now ++ more.now) }
{
    let mut all = copy_all(alloc, conds)?;
    for cond in more {
        all.push(cond.copy()?)?;
    }
    Ok(all)
}
