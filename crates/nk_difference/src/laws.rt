//! Laws of differences.
//!
//! Each function is a theorem: it takes nothing, does nothing, and its contract is the statement.
ghost use Rattle.nk_field.specs.Packet.{FieldTable};
ghost use Rattle.nk_policy.specs.Policy.{Policy};
ghost use Rattle.nk_cert.specs.Equality.{AreSame, HasOneAlone};
ghost use Rattle.nk_difference.specs.Difference.{AreTheirPredicates};

/// Where some packet is one on which two policies differ, they don't give the same histories, and one of them alone has some.
pub fn policies_that_differ_are_not_the_same()
    ensures unequal { (fields : FieldTable) (p q a b : Policy) → AreTheirPredicates fields p q a b
        → AreSame fields p q → ⊥ }
    ensures one_alone { (fields : FieldTable) (p q a b : Policy) → AreTheirPredicates fields p q a b
        → HasOneAlone fields p q }
{}
