// The rows of a tree in prefix form, and clearing the work area.

#![tactic(auto)]

ghost use Rattle.std.specs.Prelude.{◌≤◌, ◌≡◌, length};
ghost use Rattle.std.proofs.lemmas.List.Edits.{sets};
ghost use Rattle.finished.specs.Rows.{Fits, Emitted, zeros};

use normal::Top;

// The rows of the tree at `at`, from `row` on; the row after them.
pub fn emit(w: &[i32], at: usize, out: &mut [i32], row: usize) -> usize
    requires { Fits w.now at out.old row }
    ensures { Emitted w.now at out.old out.new row result }
{
    match normal::head(w, at) {
        Top::Primitive(i) => {
            moves::put(out, row * rules::TREE_ROW_WORDS, &[0, i, 0]);
            row + 1
        }
        Top::Node(operation) => {
            let middle = emit(w, at + 1, out, row);
            let end = emit(w, at + 1 + (middle - row), out, middle);
            moves::put(
                out,
                end * rules::TREE_ROW_WORDS,
                &[operation.kind(), middle - 1, end - 1],
            );
            end + 1
        }
    }
}

// The first n words are 0.
pub fn clear(w: &mut [i32], n: usize)
    requires { n ≤ length w.old }
    ensures { w.new ≡ sets w.old 0 (zeros n) }
{
    for i in 0..n {
        w[i] = 0;
    }
}
