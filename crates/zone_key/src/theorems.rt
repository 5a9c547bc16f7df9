ghost use Rattle.std.specs.Prelude.{◌≡◌, ℕ, List, Some};
ghost use Rattle.zone_key.specs.Expr.{expr_of};
ghost use Rattle.zone_key.specs.Printing.{IsExpr, printed};
ghost use Rattle.zone_key.specs.declared.expr.Part.{Part};

/// The canonical text of an expression, with each variable in braces, spells that expression. So
/// `read_expr` gives it, unless memory runs out.
pub fn printed_reads_back()
    ensures { (parts : List Part) → IsExpr parts → expr_of (printed parts) ≡ Some parts }
{}

/// What a text spells is an expression: it has 1 to 8 parts, its plain texts have a byte and no `$`, and no
/// plain text stands right behind another.
pub fn spelled_is_expr()
    ensures { (text : List ℕ) (parts : List Part) → expr_of text ≡ Some parts → IsExpr parts }
{}
