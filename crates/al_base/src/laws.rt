//! What holds of the tests of forms and limits, as the contract of a function that does nothing.

ghost use Rattle.al_base.specs.Identifiers.{IsTypeName, is_type_name};
ghost use Rattle.al_base.specs.Limits.{IsAge, IsOperatorName, IsText, is_age, is_operator_name, is_text};
ghost use Rattle.std.specs.Bool.{Decides};
ghost use Rattle.std.specs.Prelude.{ℕ, List};

/// Each test holds exactly where its relation does.
pub fn forms_are_tested()
    ensures texts { (least most : ℕ) (text : List ℕ)
        → Decides (is_text least most text) (IsText least most text) }
    ensures type_names { (text : List ℕ) → Decides (is_type_name text) (IsTypeName text) }
    ensures operator_names { (name : List ℕ)
        → Decides (is_operator_name name) (IsOperatorName name) }
    ensures ages { (age : ℕ) → Decides (is_age age) (IsAge age) }
{}
