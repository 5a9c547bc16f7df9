ghost use Rattle.std.specs.Prelude.{◌≡◌, ◌≢◌, ◌+◌, ◌++◌, ◌⊎◌, ℕ, List};
ghost use Rattle.directive_text.specs.declared.tree.Directive.{Directive};
ghost use Rattle.directive_text.specs.Faults.{HasFault};
ghost use Rattle.directive_text.specs.Printing.{printed, Fits};
ghost use Rattle.directive_text.specs.Spelling.{Spells, line_feeds};

/// Each text spells one tree or has one first fault, and not both.
pub fn texts_spell_or_fail()
    ensures either { (text : List ℕ) → ((directives : List Directive) × Spells text directives)
        ⊎ ((line kind : ℕ) × HasFault text line kind) }
    ensures one_tree { (text : List ℕ) (these those : List Directive) → Spells text these → Spells text those
        → these ≡ those }
    ensures one_fault { (text : List ℕ) (line kind other_line other_kind : ℕ) → HasFault text line kind
        → HasFault text other_line other_kind → (line ≡ other_line) × (kind ≡ other_kind) }
    ensures not_both { (text : List ℕ) (directives : List Directive) (line kind : ℕ) → Spells text directives
        → ¬ HasFault text line kind }
{}

/// A fault that isn't the end of the text (kind 2) is the same whatever follows.
pub fn faults_stay()
    ensures { (text more : List ℕ) (line kind : ℕ) → HasFault text line kind → kind ≢ 2
        → HasFault (text ++ more) line kind }
{}

/// Where a text ends too early (kind 2), the fault is on its last line: 1 and the number of its LFs.
pub fn early_ends_are_on_the_last_line()
    ensures { (text : List ℕ) (line : ℕ) → HasFault text line 2 → line ≡ 1 + line_feeds text }
{}

/// The canonical text of a tree spells the tree: each directive has its words and its line again. So `read`
/// gives it, unless memory runs out.
pub fn printed_reads_back()
    ensures { (directives : List Directive) → Fits directives
        → Spells (printed directives) directives }
{}

/// What a text spells has a canonical text: its directives' lines don't fall, each directive has a word, and
/// no more than 16 blocks are open at once.
pub fn spelled_fits()
    ensures { (text : List ℕ) (directives : List Directive) → Spells text directives → Fits directives }
{}
