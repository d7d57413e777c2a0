ghost use Rattle.std.specs.Prelude.{◌≡◌, ◌+◌, ◌-◌, ◌≤◌, ◌<◌, ◌↔◌, ℕ, IsTrue, IfOk, OnOk, OnErr, IsOk, IsErrOf, length, slice_get};
ghost use Rattle.std.specs.Bool.{OnTrue, OnFalse};
ghost use Rattle.std.specs.Option.{option_copied};
ghost use Rattle.avp_lists.specs.Instances.{first_instance};
ghost use Rattle.avp_lists.specs.Selections.{IsFullSelected, after_edit_selected, edited_list_selected, first_selected_instance};
ghost use Rattle.avp_lists.specs.States.{list_of, edited_list, IsFull, IsLimited};
ghost use Rattle.avp_lists.specs.History.{History, state_at, present, at_place, after_edit, after_rollback, settled};

use crate::edits::{Edit, EditFault};
use crate::lists::{List, MAX_PAIRS};
use crate::pairs::{AttrId, Pair};
use crate::tags::Selection;
use std::alloc::AllocError;

/// The lists of a store for which there was no memory.
#[derive(Debug, Drop)]
pub struct ListsRefused {
    pub request: Vec<Pair>,
    pub reply: Vec<Pair>,
    pub control: Vec<Pair>,
}

/// Three lists of pairs under edits, with the states that they went through.
///
/// A contract sees a store as a history, which is a list of states and the place of the present one,
/// and as its room: how many more states it can take without memory. Layers above know a store by
/// this contract alone.
pub trait Store: Drop {
    /// The states, and the place of the present one.
    ghost history: { Self → History };

    /// How many more states can follow the place without memory for their records.
    ghost room: { Self → ℕ };

    /// The number of pairs in a present list.
    fn count(&self, list: List) -> usize
        ensures { result ≡ length (list_of list (present (history self.now))) };

    /// The first instance of an id in a present list, borrowed.
    ///
    /// ```rust
    /// // The reply is `Session-Timeout = 600`.
    /// let timeout = store
    ///     .first(List::Reply, AttrId::Plain(27))
    ///     .ok_or("no timeout")?;
    /// assert!(rt; timeout.value == Value::Int(600));
    /// ```
    fn first(&self, list: List, id: AttrId) -> Option<&Pair>
        ensures { option_copied result
            ≡ first_instance id (list_of list (present (history self.now))) }
    {
        self.first_selected(list, id, Selection::All)
    }

    /// The first instance of an id in a present list that the selection means, borrowed; `None` exactly where it means
    /// none.
    ///
    /// ```rust
    /// // The reply is `Tunnel-Type:1 = VLAN`, `Tunnel-Type:2 = GRE`.
    /// let second = Selection::Tag(Tagging::Number, 2);
    /// let tunnel = store
    ///     .first_selected(List::Reply, AttrId::Plain(64), second)
    ///     .ok_or("no tunnel")?;
    /// assert_eq!(rt; tag_of(Tagging::Number, &tunnel.value), Some(2));
    /// ```
    fn first_selected(&self, list: List, id: AttrId, selection: Selection) -> Option<&Pair>
        ensures { option_copied result
            ≡ first_selected_instance selection id (list_of list (present (history self.now))) };

    /// A copy of a present list.
    fn list(&self, list: List) -> Result<Vec<Pair>, AllocError>
        ensures { IfOk result (λ copy. copy.items ≡ list_of list (present (history self.now))) };

    /// The pair at a place of a present list, borrowed; `None` past its end.
    ///
    /// ```rust
    /// // The reply is `Session-Timeout = 600`.
    /// let timeout = store.pair(List::Reply, 0).ok_or("no timeout")?;
    /// assert!(rt; timeout.value == Value::Int(600));
    /// assert!(rt; store.pair(List::Reply, 1).is_none());
    /// ```
    fn pair(&self, list: List, at: usize) -> Option<&Pair>
        ensures { option_copied result ≡ slice_get (list_of list (present (history self.now))) at };

    /// The place of the present state.
    fn place(&self) -> usize
        ensures { result ≡ (history self.now).place };

    /// The number of states less one.
    fn steps(&self) -> usize
        ensures { result + 1 ≡ length (history self.now).states };

    /// How many more states can follow the present one without memory for their records; the lists of
    /// an edited state may want memory of their own.
    fn room(&self) -> usize
        ensures { result ≡ room self.now };

    /// Makes room for `n` more states after the place. It is refused only where there was less. The
    /// history and the place stay as they are, and the room never falls.
    fn reserve(&mut self, n: usize) -> Result<(), AllocError>
        ensures ok { OnOk result (n ≤ room self.new) }
        ensures enough { n ≤ room self.old → IsOk result }
        ensures unchanged { history self.new ≡ history self.old }
        ensures kept { room self.old ≤ room self.new };

    /// Edits the present state. The states after the place are cut off, and the edited state is added,
    /// also where the edit changes nothing. After a refusal the history is as it was, and the edit is
    /// given up.
    ///
    /// ```rust
    /// let id = AttrId::Plain(27);
    /// let value = Value::Int(600);
    /// store.edit(Edit {
    ///     list: List::Reply,
    ///     op: Op::Replace,
    ///     pair: Pair { id, value },
    /// })?;
    /// assert_eq!(rt; store.count(List::Reply), 1);
    /// ```
    fn edit(&mut self, edit: Edit) -> Result<(), EditFault>
        ensures ok { OnOk result (history self.new ≡ after_edit edit (history self.old)) }
        ensures fits { OnOk result (length (edited_list edit (present (history self.old)))
            ≤ MAX_PAIRS) }
        ensures full { IsErrOf result EditFault.Full ↔ IsFull edit (present (history self.old)) }
        ensures err { OnErr result (history self.new ≡ history self.old) }
        ensures kept { (history self.old).place + room self.old
            ≤ (history self.new).place + room self.new }
    {
        self.edit_selected(edit, Selection::All)
    }

    /// Edits the present state as `edit` does, but of the instances of the pair's id only those that the selection
    /// means are looked for, compared, replaced or dropped. The pair is added as it is, whatever its tag.
    ///
    /// ```rust
    /// // The reply is `Tunnel-Type:1 = VLAN`, and GRE is the number 10.
    /// let id = AttrId::Plain(64);
    /// let value = Value::Bytes(Octets::from_slice(alloc, &[2, 0, 0, 10])?);
    /// let gre = Edit {
    ///     list: List::Reply,
    ///     op: Op::Replace,
    ///     pair: Pair { id, value },
    /// };
    /// store.edit_selected(gre, Selection::Tag(Tagging::Number, 2))?;
    /// assert_eq!(rt; store.count(List::Reply), 2);
    /// ```
    fn edit_selected(&mut self, edit: Edit, selection: Selection) -> Result<(), EditFault>
        ensures ok { OnOk result (history self.new
            ≡ after_edit_selected selection edit (history self.old)) }
        ensures fits { OnOk result
            (length (edited_list_selected selection edit (present (history self.old)))
            ≤ MAX_PAIRS) }
        ensures full { IsErrOf result EditFault.Full
            ↔ IsFullSelected selection edit (present (history self.old)) }
        ensures err { OnErr result (history self.new ≡ history self.old) }
        ensures kept { (history self.old).place + room self.old
            ≤ (history self.new).place + room self.new };

    /// Goes to the state before, if there is one.
    ///
    /// ```rust
    /// // The reply has no pair, and the edit adds one.
    /// store.edit(edit)?;
    /// assert_eq!(rt; store.count(List::Reply), 1);
    /// assert!(rt; store.undo());
    /// assert_eq!(rt; store.count(List::Reply), 0);
    /// assert!(rt; store.redo());
    /// assert_eq!(rt; store.count(List::Reply), 1);
    /// ```
    fn undo(&mut self) -> bool
        ensures variant { IsTrue result ↔ (0 < (history self.old).place) }
        ensures moved { history self.new
            ≡ at_place ((history self.old).place - 1) (history self.old) }
        ensures kept { (history self.new).place + room self.new
            ≡ (history self.old).place + room self.old };

    /// Goes to the state after, if there is one.
    fn redo(&mut self) -> bool
        ensures variant { IsTrue result ↔
            ((history self.old).place + 1 < length (history self.old).states) }
        ensures moved { OnTrue result (history self.new
            ≡ at_place ((history self.old).place + 1) (history self.old)) }
        ensures end { OnFalse result (history self.new ≡ history self.old) }
        ensures kept { (history self.new).place + room self.new
            ≡ (history self.old).place + room self.old };

    /// Cuts off the states after the place, and adds the state at `to` once more. It is refused only
    /// where there is no room; the history and the place are then as they were.
    ///
    /// ```rust
    /// // The reply has no pair, and the edit adds one.
    /// let entry = store.place();
    /// store.edit(edit)?;
    /// store.rollback(entry)?;
    /// assert_eq!(rt; store.count(List::Reply), 0);
    /// assert!(rt; store.undo());
    /// assert_eq!(rt; store.count(List::Reply), 1);
    /// ```
    fn rollback(&mut self, to: usize) -> Result<(), AllocError>
        requires { to ≤ (history self.old).place }
        ensures ok { OnOk result (history self.new ≡ after_rollback to (history self.old)) }
        ensures enough { 0 < room self.old → IsOk result }
        ensures err { OnErr result (history self.new ≡ history self.old) }
        ensures kept { (history self.old).place + room self.old
            ≤ (history self.new).place + room self.new };

    /// Forgets each state but the present one.
    ///
    /// ```rust
    /// // The reply has no pair, and the edit adds one.
    /// store.edit(edit)?;
    /// store.settle();
    /// assert!(rt; !store.undo());
    /// assert_eq!(rt; (store.count(List::Reply), store.steps()), (1, 0));
    /// ```
    fn settle(&mut self)
        ensures settled { history self.new ≡ settled (history self.old) }
        ensures kept { room self.old ≤ room self.new };

    /// The place is that of a state.
    ghost placed: { (s : Self) → (history s).place < length (history s).states };

    /// There is room for the states after the place.
    ghost roomy: { (s : Self) → length (history s).states ≤ (history s).place + 1 + room s };

    /// No list of a state is too long.
    ghost limited: { (s : Self) (k : ℕ) → IsLimited (state_at (history s) k) };
}
