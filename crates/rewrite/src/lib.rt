// The engine of document 000: the tree of a table, rewritten into normal form.

#![tactic(auto)]

ghost use Rattle.std.specs.Prelude.{◌≤◌, ◌≡◌, length};
ghost use Rattle.std.proofs.Math.Option.{none};
ghost use Rattle.rules.specs.Choices.{expansion};
ghost use Rattle.rules.specs.RewriteCall.{most_rewritten, most_ways, TreeRewritten};
ghost use Rattle.rules.specs.Table.{primitives};
ghost use Rattle.rules.specs.Tree.{tree_of};
ghost use Rattle.rules.specs.Verdict.{table_refusal};
ghost use Rattle.rewrite.specs.Limits.{Limits, Finished};

use rules::{Refusal, Rule};

// Within the limits: the tree in the work area, rewritten there, its rows, and the work area cleared; how many words were written.
fn write_tree(table: &[i32], tree: &mut [i32], work: &mut [i32]) -> usize
    requires { Limits table.now tree.old work.old }
    ensures { Finished table.now tree.old tree.new work.old work.new result }
{
    let used = flatten::lay(table, work, 0, table::root(table));
    normal::normalize(work, 0, used);
    let rows = finished::emit(work, 0, tree, 0);
    finished::clear(work, work.len());
    rows * rules::TREE_ROW_WORDS
}

// The primitives and the ways are not too many: the room in both areas, then the tree.
fn rewrite_for(table: &[i32], tree: &mut [i32], work: &mut [i32]) -> Result<usize, Refusal>
    requires table_value { table_refusal table.now ≡ none }
    requires table_len_bound { (length (primitives table.now) ≤ most_rewritten) × (expansion (tree_of table.now) ≤ most_ways) }
    ensures { TreeRewritten table.now tree.old tree.new work.old work.new result }
{
    if (tree.len() < rules::REWRITE_WORDS) | (work.len() < rules::REWRITE_WORDS) {
        return Err(Refusal::new(Rule::Room, rules::REWRITE_WORDS));
    }
    Ok(write_tree(table, tree, work))
}

// The table is sound: the primitives, the ways, then the rest.
fn rewrite_in(table: &[i32], tree: &mut [i32], work: &mut [i32]) -> Result<usize, Refusal>
    requires { table_refusal table.now ≡ none }
    ensures { TreeRewritten table.now tree.old tree.new work.old work.new result }
{
    let mut bits: [u64; 127] = [0; 127];
    let primitives = choice::number_rows(&mut bits, table);
    if rules::MOST_REWRITTEN < primitives {
        return Err(Refusal::new(Rule::Leaves, primitives));
    }
    let ways = choice::ways_of(table, &bits);
    if rules::MOST_WAYS < ways {
        return Err(Refusal {
            rule: Rule::Ways,
            value: ways,
        });
    }
    rewrite_for(table, tree, work)
}

// The call that zone::rewrite_tree hands on.
pub fn rewrite_tree(table: &[i32], tree: &mut [i32], work: &mut [i32]) -> Result<usize, Refusal>
    ensures { TreeRewritten table.now tree.old tree.new work.old work.new result }
{
    table::check(table)?;
    rewrite_in(table, tree, work)
}
