//! Runs on requests whose names and values are written as people write them.

use crate::commands::{RUN, RUN_TAGGED, RUN_TYPES};
use crate::runs::Run;

pub const VALUES: [Run; 21] = [
    (
        RUN_TYPES,
        b"Ty-S = 0x10",
        b"",
        0,
        b"request
  Ty-S = 16
reply
control
result ok
",
    ),
    (
        RUN_TYPES,
        b"Ty-G = -1",
        b"",
        0,
        b"request
  Ty-G = -1
reply
control
result ok
",
    ),
    (
        RUN_TYPES,
        b"Ty-L = 18446744073709551615",
        b"",
        0,
        b"request
  Ty-L = 18446744073709551615
reply
control
result ok
",
    ),
    (
        RUN_TYPES,
        b"Ty-E = 00:1A:2b:3c:4d:5e",
        b"",
        0,
        b"request
  Ty-E = 00:1a:2b:3c:4d:5e
reply
control
result ok
",
    ),
    (
        RUN_TYPES,
        b"Ty-D = 60",
        b"",
        0,
        b"request
  Ty-D = 60
reply
control
result ok
",
    ),
    (
        RUN_TYPES,
        b"Ty-U = 10",
        b"",
        0,
        b"request
  Ty-U = 0x3130
reply
control
result ok
",
    ),
    (
        RUN_TYPES,
        b"Ty-B = 256",
        b"",
        2,
        b"radpolicy: E30 request:1: not a value\n",
    ),
    (
        RUN_TYPES,
        b"Ty-G = -2147483649",
        b"",
        2,
        b"radpolicy: E30 request:1: not a value\n",
    ),
    (
        RUN_TYPES,
        b"Ty-V = ::1",
        b"",
        2,
        b"radpolicy: E30 request:1: not a value\n",
    ),
    (
        RUN_TYPES,
        b"Ty-T = VLAN",
        b"",
        2,
        b"radpolicy: E30 request:1: not a value\n",
    ),
    (
        RUN,
        b"User-Name = \"a\\\"\\\\\\101\\n\\303\"",
        b"",
        0,
        b"request
  User-Name = \"a\\\"\\\\A\\n\\303\"
reply
control
result ok
",
    ),
    (
        RUN,
        b"Attr-4 = 0xc0a80101",
        b"",
        0,
        b"request
  NAS-IP-Address = 192.168.1.1
reply
control
result ok
",
    ),
    (
        RUN,
        b"Attr-4 = 0x01",
        b"",
        0,
        b"request
  Attr-4 = 0x01
reply
control
result ok
",
    ),
    (
        RUN,
        b"Service-Type = Nosuch",
        b"",
        2,
        b"radpolicy: E30 request:1: not a value\n",
    ),
    (
        RUN,
        b"NAS-Port = 4294967296",
        b"",
        2,
        b"radpolicy: E30 request:1: not a value\n",
    ),
    (
        RUN,
        b"Attr-26 = 0x00",
        b"",
        2,
        b"radpolicy: E33 request:1: not writable\n",
    ),
    (
        RUN,
        b"Nosuch = 1",
        b"",
        2,
        b"radpolicy: E32 request:1: unknown attribute\n",
    ),
    (
        RUN,
        b"User-Name \"x\"",
        b"",
        2,
        b"radpolicy: E36 request:1: unreadable line\n",
    ),
    (
        RUN,
        b"User-Name = \"x\"\n\nNAS-Port = 1",
        b"",
        2,
        b"radpolicy: E34 request:3: second packet\n",
    ),
    // Octets that a type does not read are printed by number.
    (
        RUN_TAGGED,
        b"Tunnel-Type = 0x00000001",
        b"",
        0,
        b"request
  Tunnel-Type = 0x00000001
reply
control
result ok
",
    ),
    (
        RUN,
        b"User-Name = bob",
        b"update reply {
\tService-Type := Login-User
\tLogin-Service := Telnet
\tLogin-IP-Host := 192.168.1.3
\tReply-Message += \"it's \\%fine\"
\tcontrol:Cisco-AVPair += 'a=b'
}
",
        0,
        b"request
  User-Name = \"bob\"
reply
  Service-Type = Login-User
  Login-Service = Telnet
  Login-IP-Host = 192.168.1.3
  Reply-Message = \"it's %fine\"
control
  Cisco-AVPair = \"a=b\"
result ok
",
    ),
];
