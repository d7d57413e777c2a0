//! What a run came to, as C sees it.

ghost use Rattle.std.specs.Prelude.{◌≡◌};
ghost use Rattle.radpolicy_c.specs.Outcomes.{are_lists_short, are_short, lists_status, lists_told, outcome_told, run_status};
ghost use Rattle.radpolicy_c.specs.Rooms.{room_after};

use crate::lines::put_front;
use crate::pairs::RadpolicyPair;
use crate::runs::Ran;
use crate::statuses::Status;

/// What a run came to, but for its texts.
#[repr(C)]
#[derive(Clone, Copy, Debug)]
pub struct RadpolicyOutcome {
    /// Of the reply packet.
    pub packet_length: usize,
    /// Of the report, or of the line of a fault.
    pub report_length: usize,
    /// The last code, and what is sent, as [`Ran`] has them.
    pub code: u8,
    pub sends: u8,
    pub stopped: bool,
}

/// What a run came to, with how many pairs its lists have, but for its texts and its pairs.
#[repr(C)]
#[derive(Clone, Copy, Debug)]
pub struct RadpolicyLists {
    /// Of the reply packet.
    pub packet_length: usize,
    /// Of the octets of the pairs, or of the line of a fault.
    pub octets_length: usize,
    pub request_count: usize,
    pub reply_count: usize,
    pub control_count: usize,
    /// The last code, and what is sent, as [`Ran`] has them.
    pub code: u8,
    pub sends: u8,
    pub stopped: bool,
}

/// Puts the packet and the report of a run at the front of their rooms, and the rest beside them. Gives the run's status,
/// or `TooShort` where a room is, and then both stay as they are.
pub(crate) fn tell_run(
    ran: &Ran,
    outcome: &mut RadpolicyOutcome,
    packet: &mut [u8],
    report: &mut [u8],
) -> Status
    ensures status { result ≡ run_status ran.now packet.old report.old }
    ensures outcome { outcome.new ≡ outcome_told ran.now }
    ensures packet { packet.new ≡ room_after (are_short ran.now packet.old report.old)
        ran.now.packet packet.old }
    ensures report { report.new ≡ room_after (are_short ran.now packet.old report.old)
        ran.now.octets report.old }
{
    let octets = ran.packet.as_slice();
    let text = ran.octets.as_slice();
    *outcome = RadpolicyOutcome {
        packet_length: octets.len(),
        report_length: text.len(),
        code: ran.code,
        sends: ran.sends,
        stopped: ran.stopped,
    };
    if packet.len() < octets.len() || report.len() < text.len() {
        return Status::TooShort;
    }
    put_front(packet, octets);
    put_front(report, text);
    ran.status
}

/// Puts the packet, the pairs and their octets of a run at the front of their rooms, and the rest beside them. Gives the
/// run's status, or `TooShort` where a room is, and then all stay as they are.
pub(crate) fn tell_lists(
    ran: &Ran,
    lists: &mut RadpolicyLists,
    packet: &mut [u8],
    pairs: &mut [RadpolicyPair],
    octets: &mut [u8],
) -> Status
    ensures status { result ≡ lists_status ran.now packet.old pairs.old octets.old }
    ensures lists { lists.new ≡ lists_told ran.now }
    ensures packet { packet.new ≡ room_after
        (are_lists_short ran.now packet.old pairs.old octets.old) ran.now.packet packet.old }
    ensures pairs { pairs.new ≡ room_after
        (are_lists_short ran.now packet.old pairs.old octets.old) ran.now.lists.pairs pairs.old }
    ensures octets { octets.new ≡ room_after
        (are_lists_short ran.now packet.old pairs.old octets.old) ran.now.octets octets.old }
{
    let sent = ran.packet.as_slice();
    let records = ran.lists.pairs.as_slice();
    let text = ran.octets.as_slice();
    *lists = RadpolicyLists {
        packet_length: sent.len(),
        octets_length: text.len(),
        request_count: ran.lists.request_count,
        reply_count: ran.lists.reply_count,
        control_count: ran.lists.control_count,
        code: ran.code,
        sends: ran.sends,
        stopped: ran.stopped,
    };
    if packet.len() < sent.len() || octets.len() < text.len() || pairs.len() < records.len() {
        return Status::TooShort;
    }
    put_front(packet, sent);
    put_front(pairs, records);
    put_front(octets, text);
    ran.status
}
