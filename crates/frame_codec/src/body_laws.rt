//! What the grammar of bodies means: one spelling for each item, inputs as values, one value for several kinds.

ghost use Rattle.std.specs.Prelude.{◌≡◌, ◌↔◌, ℕ, ◌<◌, ◌≤◌, List, length, true, false, None, Ok, Err};
ghost use Rattle.ritas_base.specs.Limits.{number_limit};
ghost use Rattle.ritas_base.specs.Numbers.{Numbers, IsSession};
ghost use Rattle.ritas_base.specs.Slots.{has_class, slot_fault, by_echo, form_of, command_slot};
ghost use Rattle.ritas_base.specs.declared.slot.Slot.{Slot};
ghost use Rattle.ritas_base.specs.declared.mode.Mode.{Mode};
ghost use Rattle.ritas_base.specs.declared.item.Item.{Item};
ghost use Rattle.ritas_base.specs.declared.slot.SlotFault.{SlotFault};
ghost use Rattle.frame_codec.specs.declared.fault.BodyFault.TheVariants as fault;
ghost use Rattle.frame_codec.specs.Faults.{IsKindFault, IsSlotFault, IsPayloadFault, IsRestFault};
ghost use Rattle.frame_codec.specs.Format.{Is};
ghost use Rattle.frame_codec.specs.Grammar.{value};
ghost use Rattle.frame_codec.specs.Body.{Spells, IsInGrammar, spelling, body_answer, is_of_form, carries_value};
ghost use Rattle.frame_codec.specs.Inputs.{IsInput, first_kind};
ghost use Rattle.frame_codec.specs.Laws.{AnswersGood, AnswersSpelled, InputsFaultless, InputsAreValues, CommandSlotsRight};

/// An item of the grammar is read again from its one spelling, which has at most 15,952 bytes; bytes spell one item, and
/// what they are answered as is in the grammar, from the sender, and is what they spell.
///
/// It does nothing: its contract is the law.
pub fn spelled()
    ensures spells { (p : Numbers) (mode : Mode) (item : Item) → IsInGrammar p mode item
        → Spells p mode item.from (spelling item) item }
    ensures read { (p : Numbers) (mode : Mode) (from : ℕ) (item : Item) → IsInGrammar p mode item
        → body_answer p mode from (spelling item) ≡ Ok (record item { from = from }) }
    ensures answered { AnswersGood }
    ensures spelling { AnswersSpelled }
    ensures one { (p : Numbers) (mode : Mode) (from : ℕ) (bytes : List ℕ) (a b : Item)
        → Spells p mode from bytes a → Spells p mode from bytes b → a ≡ b }
    ensures short { (p : Numbers) (mode : Mode) (item : Item) → IsInGrammar p mode item → length (spelling item) ≤ 15952 }
{}

/// Each fault of a body comes exactly where these words about the bytes hold.
///
/// It does nothing: its contract is the law.
pub fn body_faults()
    // There is no kind, or the broadcast of a right slot hasn't it.
    ensures kind { (p : Numbers) (mode : Mode) (from : ℕ) (bytes : List ℕ)
        → (body_answer p mode from bytes ≡ Err fault.Kind) ↔ IsKindFault p mode bytes }
    // There is a kind, and the slot isn't whole or has this fault.
    ensures slot { (p : Numbers) (mode : Mode) (from : ℕ) (bytes : List ℕ) (x : SlotFault)
        → (body_answer p mode from bytes ≡ Err (fault.Slot x)) ↔ IsSlotFault p mode bytes x }
    // The payload is read from the left up to a fault at this offset.
    ensures payload { (p : Numbers) (mode : Mode) (from : ℕ) (bytes : List ℕ) (offset : ℕ)
        → (body_answer p mode from bytes ≡ Err (fault.Payload offset)) ↔ IsPayloadFault p mode bytes offset }
    // A whole payload is read, and bytes follow it from this offset on.
    ensures rest { (p : Numbers) (mode : Mode) (from : ℕ) (bytes : List ℕ) (offset : ℕ)
        → (body_answer p mode from bytes ≡ Err (fault.Rest offset)) ↔ IsRestFault p mode bytes offset }
{}

/// Whether a value is in the grammar of its slot doesn't depend on the sender, nor on with which of the kinds that carry
/// values it comes.
///
/// It does nothing: its contract is the law.
pub fn same_value()
    ensures kinds { (p : Numbers) (mode : Mode) (a b : Item) → carries_value (form_of mode a.slot) a.kind ≡ true
        → carries_value (form_of mode b.slot) b.kind ≡ true → is_of_form (form_of mode b.slot) b.kind ≡ true → a.slot ≡ b.slot → a.value ≡ b.value
        → IsInGrammar p mode a → IsInGrammar p mode b }
    ensures senders { (p : Numbers) (mode : Mode) (a b : Item) → a.kind ≡ b.kind → a.slot ≡ b.slot → a.value ≡ b.value
        → IsInGrammar p mode a → IsInGrammar p mode b }
    // What comes with these kinds is the slot's value: INIT, SEND and VALUE, and in version 1 ECHO and READY.
    ensures value { (p : Numbers) (mode : Mode) (item : Item) → carries_value (form_of mode item.slot) item.kind ≡ true
        → IsInGrammar p mode item → Is (value p mode.root item.slot) item.value }
    ensures item { (p : Numbers) (mode : Mode) (item : Item) → carries_value (form_of mode item.slot) item.kind ≡ true → IsSession p
        → slot_fault p mode item.slot ≡ None → is_of_form (form_of mode item.slot) item.kind ≡ true
        → Is (value p mode.root item.slot) item.value → IsInGrammar p mode item }
{}

/// Nothing is wrong with bytes exactly where they are an input of the root service.
///
/// It does nothing: its contract is the law.
pub fn right_input()
    ensures { InputsFaultless }
{}

/// An input is the value of the slots that it is for: in root services 1, 2, 6 and 7 of an origin's command.
///
/// It does nothing: its contract is the law.
pub fn input_is_value()
    ensures value { InputsAreValues }
    ensures slot { CommandSlotsRight }
    ensures command { (p : Numbers) (mode : Mode) (item : Item) (num : ℕ) → IsSession p → has_class mode.root 1 ≡ true
        → item.slot ≡ command_slot item.slot.origin num → item.slot.origin < p.n → num < number_limit
        → item.kind ≡ first_kind (by_echo mode item.slot) → IsInput p mode item.value → IsInGrammar p mode item }
{}
