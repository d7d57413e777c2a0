//! Command lines, and what they ask for.

use radpolicy::{Command, Fault, Form, Plan, help_text, read_words, status};
use std::alloc::Global;
use std::process::Abort;
use std::test::Fail;

const AUTHENTICATOR: &str = "0F403f9473978057bd83d5cb98f4227a";

// Tables of command lines: on each line what becomes of the words after the bar, after those that all
// of a table share. It is `plan`, or a fault: `help`, `usage` or `value`. `''` is an empty word, and
// `HEX` an authenticator.

const NO_COMMAND: &str = "\
usage |
usage | ''
usage | --policy p d
usage | walk --policy p d
usage | step --policy p d
usage | help
usage | --version
help | --help
help | -h
";

const CHECK: &str = "\
plan | d
plan | d x/e
usage |
plan | --policy p d
usage | -f r d
value | x/d d
help | --help
";

const RUN: &str = "\
help | --help
help | -h --policy p a/d b/d
usage |
usage | d
usage | --policy p
plan | --policy p d
usage | --policy p d -f
usage | --policy p d -x
usage | --pol p d
usage | --policy p --policy p d
usage | --policy p -f r -f r d
usage | --policy p --script s d
value | --policy p a/d b/d
value | --policy p d e d
value | --policy p a/ b/
usage | --pol p d d
";

const PACKETS_OF_RUN: &str = "\
plan | -i 5
value | -S s
value | --authenticator HEX
plan | -S s --authenticator HEX
value | --hex
plan | --hex -S s
value | --hex -S s --acct
value | --hex -S s -i 0
value | --hex -S s --authenticator HEX
plan | --acct
plan | --acct -S s
value | --acct -S s --authenticator HEX
usage | --acct --acct
usage | --hex --hex -S s
plan | -i 255
value | -i 256
plan | -i 007
value | -i +7
value | -i ''
usage | -i -5
value | -i=-5
value | -i x
usage | -i 5 -i 5
value | -S s --authenticator 00
value | -S s --authenticator ''
";

const STEP: &str = "\
plan |
plan | -f r
value | --hex
value | -S s
plan | --hex -S s
usage | --acct
usage | -i 5
usage | --authenticator HEX
value | e/d
";

const ENCODE: &str = "\
usage |
value | -S s
plan | -S s --authenticator HEX
plan | -S s --acct
value | -S s --acct --authenticator HEX
usage | -S s --hex
usage | -S s --policy p
value | -S s --acct -i 300
";

const DECODE: &str = "\
usage |
plan | -S s
plan | -S s -f r
usage | -S s -i 1
usage | -S s --hex
usage | -S s --authenticator HEX
value | -S s e/d
";

// What becomes of these words, as the tables call it.
fn outcome(answer: Result<Plan<'_>, Fault>) -> &'static str {
    match answer {
        Ok(_) => "plan",
        Err(Fault::Help) => "help",
        Err(Fault::Usage) => "usage",
        Err(Fault::OptionValue) => "value",
        Err(_) => "another fault",
    }
}

// The word that a table's word stands for.
fn word(written: &str) -> &str {
    match written {
        "''" => "",
        "HEX" => AUTHENTICATOR,
        _ => written,
    }
}

// Each line of the table says what becomes of its words after those in front.
fn expect_table(rt: &impl Abort, alloc: Global, front: &str, table: &str) -> Result<(), Fail> {
    for line in table.lines() {
        let (wanted, after) = line.split_once(" |").ok_or("a bar")?;
        let mut words: Vec<&str> = Vec::new(alloc);
        for written in front.split_whitespace() {
            words.push(word(written))?;
        }
        for written in after.split_whitespace() {
            words.push(word(written))?;
        }
        assert_eq!(rt; outcome(read_words(alloc, &words)), wanted, "{line}");
    }
    Ok(())
}

// The words in front of those of each table.
const TABLES: [(&str, &str); 7] = [
    ("radpolicy", NO_COMMAND),
    ("radpolicy check", CHECK),
    ("radpolicy run", RUN),
    ("radpolicy run --policy p d", PACKETS_OF_RUN),
    ("radpolicy step --policy p --script s d", STEP),
    ("radpolicy encode d", ENCODE),
    ("radpolicy decode d", DECODE),
];

#[test]
fn reads_the_words_of_commands(rt: HostRuntime) -> Result<(), Fail> {
    for (front, table) in TABLES {
        expect_table(&rt, rt.alloc(), front, table)?;
    }
    Ok(())
}

#[test]
fn reads_what_is_asked_for(rt: HostRuntime) -> Result<(), Fail> {
    let words = ["radpolicy", "run", "d", "-fr", "--policy=p", "x/e"];
    let plan = read_words(rt.alloc(), words.as_slice()).map_err(|_| "a plan")?;
    assert!(rt; plan.command == Command::Run);
    assert!(rt; plan.dictionaries.as_slice() == ["d", "x/e"].as_slice());
    assert!(rt; plan.request == Some("r"));
    assert!(rt; plan.policy == Some("p"));
    let words = ["radpolicy", "run", "--policy", "p", "--", "d", "-f"];
    let plan = read_words(rt.alloc(), words.as_slice()).map_err(|_| "a plan")?;
    assert!(rt; plan.dictionaries.as_slice() == ["d", "-f"].as_slice());
    assert!(rt; plan.request == None);
    let words = [
        "radpolicy",
        "encode",
        "-i",
        "007",
        "-S",
        "s",
        "--authenticator",
        AUTHENTICATOR,
        "d",
    ];
    let plan = read_words(rt.alloc(), words.as_slice()).map_err(|_| "a plan")?;
    assert!(rt; plan.command == Command::Encode);
    assert!(rt; plan.form == Form::Access);
    assert_eq!(rt; plan.identifier, 7);
    assert!(rt; plan.secret == Some("s"));
    let octets = plan.authenticator.unwrap_or([0; 16]);
    assert_eq!(rt; octets[0], 0x0f);
    assert_eq!(rt; octets[15], 0x7a);
    Ok(())
}

#[test]
fn shows_help(rt: HostRuntime) -> Result<(), Fail> {
    let text = help_text(rt.alloc(), ["radpolicy", "run", "--help"].as_slice())?;
    assert!(rt;
        text.as_str().contains("Usage: radpolicy run [OPTIONS] --policy <POLICY> <DICTIONARY>...")
    );
    assert_eq!(rt; status(&Fault::Help), 0);
    Ok(())
}
