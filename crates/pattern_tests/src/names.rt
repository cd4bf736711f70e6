//! Names, and patterns of names with `*`.
use compare_built::name_pattern::matches_name;
use std::test::Fail;

#[test]
fn names_that_match(rt: HostRuntime) -> Result<(), Fail> {
    for (pattern, name) in [
        ("", ""),
        ("acc", "acc"),
        ("*", ""),
        ("*", "a"),
        ("*", "a*b"),
        ("acc[*]", "acc[]"),
        ("acc[*]", "acc[0]"),
        ("acc[*]", "acc[31]"),
        ("acc[*]", "acc[0]]"),
        ("u?/*", "u?/"),
        ("u?/*", "u?/q"),
        ("**a**", "a"),
        ("**a**", "bab"),
        ("**a**", "aa"),
        ("a*b*c", "abc"),
        ("a*b*c", "axbyc"),
        ("a*b*c", "abcbc"),
        ("a*b*c", "aabbcc"),
        ("*ab", "ab"),
        ("*ab", "aab"),
        ("*ab", "abab"),
    ] {
        assert!(rt; matches_name(pattern.as_bytes(), name.as_bytes()));
    }
    Ok(())
}

#[test]
fn names_that_do_not(rt: HostRuntime) -> Result<(), Fail> {
    for (pattern, name) in [
        ("", "a"),
        ("acc", ""),
        ("acc", "ac"),
        ("acc", "acc[0]"),
        ("acc", "xacc"),
        ("acc", "Acc"),
        ("acc[*]", "acc"),
        ("acc[*]", "acc[0"),
        ("acc[*]", "xacc[0]"),
        ("acc[*]", "acc[0]x"),
        ("u?/*", "u1/q"),
        ("**a**", ""),
        ("**a**", "b"),
        ("a*b*c", "ab"),
        ("a*b*c", "acb"),
        ("a*b*c", "abcd"),
        ("a*b*c", "bc"),
        ("*ab", "aba"),
        ("*ab", "b"),
        ("*ab", ""),
    ] {
        assert!(rt; !matches_name(pattern.as_bytes(), name.as_bytes()));
    }
    Ok(())
}

/// A name that lacks only the last byte of a pattern: if each star were tried at each place, this would take years.
#[test]
fn many_stars(rt: HostRuntime) -> Result<(), Fail> {
    let pattern = "*a*a*a*a*a*a*a*a*a*a*a*a*a*a*a*b";
    let name = "aaaaaaaaaaaaaaaaaaaaaaaaaaaaaaaaaaaaaaaaaaaaaaaaaaaaaaaaaaaaaaaa";
    assert!(rt; !matches_name(pattern.as_bytes(), name.as_bytes()));
    Ok(())
}
