// The beginning of the script of seed 1: the first numbers of the generator are known.
use large_script::large_script;
use std::test::Fail;

#[test]
fn the_script_of_seed_1(rt: HostRuntime) -> Result<(), Fail> {
    let script = large_script(rt.alloc(), 1)?;
    let start = b"ring 32003 a,b,c,d,e,f grevlex\nideal L = 16838*a*a+5758*a*b+10113*a*c+";
    assert!(rt; script.starts_with(start));
    Ok(())
}
