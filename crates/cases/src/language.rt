// The command language: words, numbers, names, files and configurations, and the commands of images.
use bit_block::config::{Config, Width};
use commands::command::{Command, parse};
use commands::line::{command_part, words};
use commands::operand::{config, file, name, number};
use std::test::Fail;

#[test]
fn numbers(rt: HostRuntime) {
    assert_eq!(rt; number(b"0042").ok(), Some(42));
    assert_eq!(rt; number(b"18446744073709551615").ok(), Some(usize::MAX));
    assert!(rt; number(b"18446744073709551616").is_err());
    assert!(rt; number(b"+1").is_err());
    assert!(rt; number(b"").is_err());
}

#[test]
fn names(rt: HostRuntime) {
    assert_eq!(rt; name(b"Page-list_2").ok(), Some("Page-list_2"));
    assert!(rt; name(b"x!").is_err());
    assert!(rt; name(b"").is_err());
}

#[test]
fn files(rt: HostRuntime) {
    assert_eq!(rt; file("/tmp/é.img".as_bytes()).ok(), Some("/tmp/é.img"));
    assert_eq!(rt; file(b"../a b").ok(), Some("../a b"));
    assert!(rt; file(b"a\xff").is_err());
}

#[test]
fn commands_of_images(rt: HostRuntime) {
    let (body, path) = (b"body".as_slice(), b"body.img".as_slice());
    assert!(rt; matches!(parse(b"image", &[body]), Ok(Command::Image("body"))));
    assert!(rt;
        matches!(
            parse(b"write", &[body, path]),
            Ok(Command::Write {
                name: "body",
                file: "body.img"
            })
        )
    );
    assert!(rt; parse(b"image", &[body, path]).is_err());
    assert!(rt; parse(b"write", &[body]).is_err());
    assert!(rt; parse(b"write", &[path, path]).is_err());
    assert!(rt; parse(b"write", &[body, b"\xff"]).is_err());
}

#[test]
fn configs(rt: HostRuntime) {
    assert!(rt;
        matches!(
            config(b"book"),
            Ok(Config {
                level0: Width::W64,
                level1: Width::W64,
                data: Width::W256
            })
        )
    );
    assert!(rt;
        matches!(
            config(b"128/64/256"),
            Ok(Config {
                level0: Width::W128,
                level1: Width::W64,
                data: Width::W256
            })
        )
    );
    assert!(rt; config(b"64/64").is_err());
    assert!(rt; config(b"64/64/64/").is_err());
    assert!(rt; config(b"Book").is_err());
}

#[test]
fn words_of_a_line(rt: HostRuntime) -> Result<(), Fail> {
    let found = words(rt.alloc(), command_part(b" has\tbody  7# the end\r\n"))?;
    assert!(rt; found.len() == 3);
    assert!(rt;
        found[0] == b"has".as_slice()
            && found[1] == b"body".as_slice()
            && found[2] == b"7".as_slice()
    );
    assert!(rt; command_part(b"count body\r\n") == b"count body".as_slice());
    assert!(rt; command_part(b"\r\r") == b"\r".as_slice());
    Ok(())
}
