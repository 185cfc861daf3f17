//! The laws of answers: of words and bytes at most one is right, and what is right of `nk_impact` is so beside `equal`.
ghost use Rattle.std.specs.Prelude.{◌≡◌, ℕ, List, Option, Some};
ghost use Rattle.nk_field.specs.declared.packet.Packet.{Packet};
ghost use Rattle.nk_field.specs.Order.{Found};
ghost use Rattle.nk_field.specs.Packet.{FieldTable, IsFieldTable};
ghost use Rattle.nk_policy.specs.Policy.{Policy};
ghost use Rattle.nk_cert.specs.Equality.{Side, IsLeastDifference};
ghost use Rattle.nk_difference.specs.Alone.{KeepsPacket};
ghost use Rattle.nk_difference.specs.Difference.{AreTheirPredicates};
ghost use Rattle.nk_words.specs.Words.{command_of};
ghost use Rattle.nk_words.specs.declared.words.Command.{Command};
ghost use Rattle.nk_reply.specs.Answer.{Answer, answer_of};
ghost use Rattle.nk.specs.Answer.{IsAnswerTo};
ghost use Rattle.nk.specs.Ends.{IsFixedBy};
ghost use Rattle.nk_reply.specs.Outcome.{Outcome, differs};
ghost use Rattle.nk_reply.specs.Use.{Use};
ghost use Rattle.nk_verify_commands.specs.Comparing.{IsEqualAnswer};
ghost use Rattle.nk_change_impact.specs.Impact.{IsImpactAnswer};
ghost use Rattle.nk_change_impact.specs.Ends.{IsImpactAnswerTo, IsImpactFixedBy, names_in};
ghost use Rattle.nk_one_answer.specs.FirstKept.{side_predicate, IsFirstKept, ShowsFirstKept};

use nk_check::laws::{one_certificate_is_printed, one_thing_is_found};
use nk_grammar::fields_of_texts_have_names;
use nk_names::laws::declared_fields_are_writable;
use nk_sim::laws::a_packet_has_one_trace;
use nk_uniqueness::laws::switches_have_packets;

/// For a command and the bytes that it reads at most one answer is right, with its status and all of its text; and so for
/// words and bytes. So two runs with the same words, over sources with the same bytes left, have one answer fixed.
pub fn there_is_one_answer()
    ensures command { (c : Option Command) (bytes : List ℕ) (a b : Answer) → IsAnswerTo c bytes a
        → IsAnswerTo c bytes b → a ≡ b }
    ensures words { (words : List (List ℕ)) (bytes : List ℕ) (a b : Answer)
        → IsAnswerTo (command_of words) bytes a → IsAnswerTo (command_of words) bytes b → a ≡ b }
    ensures runs { (words : List (List ℕ)) (source other : Use) (bytes : List ℕ) (a b : Answer)
        → source.old ≡ Some bytes → other.old ≡ Some bytes
        → IsFixedBy (command_of words) source a → IsFixedBy (command_of words) other b → a ≡ b }
{
    fields_of_texts_have_names();
    one_certificate_is_printed();
    one_thing_is_found();
    declared_fields_are_writable();
    switches_have_packets();
    a_packet_has_one_trace();
}

/// Two policies have at most one pair of printed predicates of the packets on which they differ. So for the words of `nk_impact` and
/// the bytes of an input at most one answer is right, with its status and all of its text; and two runs with the same words, over
/// sources with the same bytes left, have one answer fixed.
pub fn an_impact_has_one_answer()
    ensures policies { (fields : FieldTable) (p q a b c d : Policy) → IsFieldTable fields
        → AreTheirPredicates fields p q a b → AreTheirPredicates fields p q c d
        → (a ≡ c) × (b ≡ d) }
    ensures words { (words : List (List ℕ)) (bytes : List ℕ) (a b : Answer)
        → IsImpactAnswerTo words bytes a → IsImpactAnswerTo words bytes b → a ≡ b }
    ensures runs { (words : List (List ℕ)) (source other : Use) (bytes : List ℕ) (a b : Answer)
        → source.old ≡ Some bytes → other.old ≡ Some bytes
        → IsImpactFixedBy (names_in words) source a → IsImpactFixedBy (names_in words) other b
        → a ≡ b }
{
    declared_fields_are_writable();
}

/// `equal` and `nk_impact` agree. Over the same names and bytes both have the same status. Where two policies differ, the history that
/// `equal` shows starts at a packet that the predicate of its side keeps. Of all packets that either predicate keeps it is the one
/// from which a history of one policy alone takes the fewest records, and of those that take as few the least.
pub fn equal_starts_at_the_first_packet_of_an_impact()
    ensures statuses { (left right bytes : List ℕ) (a b : Outcome)
        → IsEqualAnswer left right bytes a → IsImpactAnswer left right bytes b
        → (answer_of a).status ≡ (answer_of b).status }
    ensures texts { (left right bytes text lines : List ℕ)
        → IsEqualAnswer left right bytes (differs text)
        → IsImpactAnswer left right bytes (differs lines)
        → ShowsFirstKept left right bytes text lines }
    ensures kept { (fields : FieldTable) (p q left right : Policy)
        → AreTheirPredicates fields p q left right
        → (side : Side) (found : Found) → IsLeastDifference fields p q side found
        → KeepsPacket (side_predicate side left right) found.start }
    ensures first { (fields : FieldTable) (p q left right : Policy)
        → AreTheirPredicates fields p q left right
        → (side : Side) (found : Found) → IsLeastDifference fields p q side found
        → IsFirstKept fields p q left right found.start }
    ensures only { (fields : FieldTable) (p q left right : Policy)
        → AreTheirPredicates fields p q left right
        → (side : Side) (found : Found) → IsLeastDifference fields p q side found
        → (pk : Packet) → IsFirstKept fields p q left right pk → pk ≡ found.start }
{}
