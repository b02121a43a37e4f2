// What follows from the definitions alone, said of no call. The function does nothing.
ghost use Rattle.std.specs.Prelude.{◌≡◌, ℕ, ℤ, List, Ok};
ghost use Rattle.format_rows.specs.Fields.{number_in};
ghost use Rattle.format_table.specs.declared.field.Form.{Form};

/// A number has one text at most in each form.
pub fn one_text()
    ensures { (words : List (List ℕ)) (form : Form) (text other : List ℕ) (z : ℤ) → number_in words form text ≡ Ok z → number_in words form other ≡ Ok z → text ≡ other }
{}
