ghost use Rattle.std.specs.Prelude.{◌≡◌, ◌+◌, ◌-◌, ◌≤◌, ◌<◌, ◌∷◌, ◌++◌, [], OnOk, OnErr, IfOk, IfErr, IsOk, true, length, take, slice_index_or, vec_capacity};
ghost use Rattle.avp_lists.specs.History.{starting};
ghost use Rattle.avp_lists.specs.States.{empty_state, IsLimited};
ghost use Rattle.avp_lists.specs.internal.Snapshots.{snapshot_at, state_of, states_of, own_state, is_whole, PlacesEarlier, PlaceBelow, AllLimited};

use crate::edits::{Edit, EditFault};
use crate::lists::{List, MAX_PAIRS, Pairs, State, copies};
use crate::operators::{edited_selected, find_selected, is_full};
use crate::pairs::{AttrId, Pair};
use crate::store::{ListsRefused, Store};
use crate::tags::Selection;
use crate::vectors::make_room;
use std::alloc::{AllocError, Global};

// A state of the history.
#[derive(Drop)]
enum Snapshot {
    Whole(State),
    // That of an earlier whole one.
    Same(usize),
}

/// A store that keeps whole states. A state that was gone back to is kept by the place of the earlier one.
pub struct SnapshotStore {
    alloc: Global,
    snapshots: Vec<Snapshot>,
    place: usize,
    ghost placed: { place < length snapshots.items },
    ghost earlier: { PlacesEarlier snapshots.items },
    ghost limited: { AllLimited snapshots.items },
}

impl Drop for SnapshotStore {
    fn drop(self) {
        let SnapshotStore {
            alloc: _,
            snapshots: _,
            place: _,
        } = self;
    }
}

// Cuts the snapshots to `end`, and adds one. What needs memory comes first.
fn cut_and_push(
    snapshots: &mut Vec<Snapshot>,
    end: usize,
    snapshot: Snapshot,
) -> Result<(), AllocError>
    requires { end ≤ length snapshots.old.items }
    ensures ok { OnOk result (snapshots.new.items ≡ take end snapshots.old.items ++ snapshot ∷ []) }
    ensures enough { end < vec_capacity snapshots.old → IsOk result }
    ensures err { OnErr result (snapshots.new.items ≡ snapshots.old.items) }
    ensures kept { vec_capacity snapshots.old ≤ vec_capacity snapshots.new }
{
    make_room(snapshots, end)?;
    snapshots.truncate(end);
    snapshots.push(snapshot).unwrap();
    Ok(())
}

impl SnapshotStore {
    /// A store with one state.
    pub fn new(
        alloc: Global,
        request: Vec<Pair>,
        reply: Vec<Pair>,
        control: Vec<Pair>,
    ) -> Result<SnapshotStore, ListsRefused>
        requires request_fits { length request.items ≤ MAX_PAIRS }
        requires reply_fits { length reply.items ≤ MAX_PAIRS }
        requires control_fits { length control.items ≤ MAX_PAIRS }
        ensures ok { IfOk result (λ s. ⟦<SnapshotStore as Store>⟧.history s
            ≡ starting (record {
              request = request.items;
              reply = reply.items;
              control =
                  control.items;
            })) }
        ensures err { IfErr result (λ back. back
            ≡ record { request = request; reply = reply; control = control }) }
    {
        let Ok(mut snapshots) = Vec::with_capacity(alloc, 1) else {
            return Err(ListsRefused {
                request,
                reply,
                control,
            });
        };
        let state = State {
            request: Pairs::from_vec(request),
            reply: Pairs::from_vec(reply),
            control: Pairs::from_vec(control),
        };
        snapshots.push(Snapshot::Whole(state)).unwrap();
        Ok(SnapshotStore {
            alloc,
            snapshots,
            place: 0,
        })
    }

    // The place of the snapshot that has the state at a place.
    fn whole_place(&self, at: usize) -> usize
        requires { at < length self.now.snapshots.items }
        ensures within { result ≤ at }
        ensures state { state_of self.now.snapshots.items (snapshot_at self.now.snapshots.items at)
            ≡ own_state (snapshot_at self.now.snapshots.items result) }
        ensures whole { is_whole (snapshot_at self.now.snapshots.items result) ≡ true }
    {
        match &self.snapshots[at] {
            Snapshot::Whole(_) => at,
            Snapshot::Same(earlier) => *earlier,
        }
    }

    // The present state.
    fn present(&self) -> &State
        ensures { result.now ≡ slice_index_or
            (states_of self.now.snapshots.items) self.now.place empty_state }
    {
        let at = self.whole_place(self.place);
        match &self.snapshots[at] {
            Snapshot::Whole(state) => state,
            Snapshot::Same(_) => unreachable!(),
        }
    }

    // Cuts off the snapshots after the place, and adds one.
    fn add(&mut self, snapshot: Snapshot) -> Result<(), AllocError>
        requires earlier { PlaceBelow (self.old.place + 1) self.old.snapshots.items snapshot }
        requires limited { IsLimited (own_state snapshot) }
        ensures ok { OnOk result (states_of self.new.snapshots.items
            ≡ take (self.old.place + 1) (states_of self.old.snapshots.items)
            ++ state_of self.old.snapshots.items snapshot ∷ []) }
        ensures place { OnOk result (self.new.place ≡ self.old.place + 1) }
        ensures enough { self.old.place + 1 < vec_capacity self.old.snapshots → IsOk result }
        ensures err { OnErr result ((self.new.snapshots.items ≡ self.old.snapshots.items)
            × (self.new.place ≡ self.old.place)) }
        ensures kept { vec_capacity self.old.snapshots ≤ vec_capacity self.new.snapshots }
    {
        let end = self.place + 1;
        cut_and_push(&mut self.snapshots, end, snapshot)?;
        self.place = end;
        Ok(())
    }
}

impl Store for SnapshotStore {
    ghost use Rattle.std.specs.Prelude.{◌+◌, ◌-◌, vec_capacity};
    ghost use Rattle.avp_lists.specs.internal.Snapshots.{states_of};

    ghost history = { λ s. record { states = states_of s.snapshots.items; place = s.place } };

    ghost room = { λ s. vec_capacity s.snapshots - (s.place + 1) };

    ghost use Rattle.avp_lists.specs.internal.SnapshotLaws.{states_limited, placed_among, roomy_among};

    ghost placed = { λ s. placed_among s.snapshots.items s.place s.placed };

    ghost roomy = { λ s. roomy_among s.snapshots s.place };

    ghost limited = { λ s k. states_limited s.snapshots.items s.limited k };

    fn count(&self, list: List) -> usize {
        self.present().list(list).len()
    }

    fn first_selected(&self, list: List, id: AttrId, selection: Selection) -> Option<&Pair> {
        find_selected(self.present().list(list), id, selection)
    }

    fn list(&self, list: List) -> Result<Vec<Pair>, AllocError> {
        copies(self.alloc, self.present().list(list))
    }

    fn pair(&self, list: List, at: usize) -> Option<&Pair> {
        self.present().list(list).get(at)
    }

    fn place(&self) -> usize {
        self.place
    }

    fn steps(&self) -> usize {
        self.snapshots.len() - 1
    }

    fn room(&self) -> usize {
        self.snapshots.capacity() - (self.place + 1)
    }

    fn reserve(&mut self, n: usize) -> Result<(), AllocError> {
        let ahead = self.snapshots.len() - (self.place + 1);
        self.snapshots.reserve(n.saturating_sub(ahead))
    }

    fn edit_selected(&mut self, edit: Edit, selection: Selection) -> Result<(), EditFault> {
        let state = self.present();
        if is_full(state, &edit, selection) {
            return Err(EditFault::Full);
        }
        let Ok(next) = edited_selected(self.alloc, state, edit, selection) else {
            return Err(EditFault::Memory);
        };
        self.add(Snapshot::Whole(next))
            .map_err(|_| EditFault::Memory)
    }

    fn undo(&mut self) -> bool {
        if self.place == 0 {
            return false;
        }
        self.place -= 1;
        true
    }

    fn redo(&mut self) -> bool {
        if self.place + 1 == self.snapshots.len() {
            return false;
        }
        self.place += 1;
        true
    }

    fn rollback(&mut self, to: usize) -> Result<(), AllocError> {
        let earlier = self.whole_place(to);
        self.add(Snapshot::Same(earlier))
    }

    fn settle(&mut self) {
        let at = self.whole_place(self.place);
        self.snapshots.swap(0, at);
        self.snapshots.truncate(1);
        self.place = 0;
    }
}
