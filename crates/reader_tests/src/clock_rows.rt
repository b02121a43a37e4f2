// Rows about clock-hour programs, and the lines that answer them.
use clock_hours::clock_lines;
use std::alloc::Global;
use std::process::Abort;
use std::test::Fail;

// Asserts the whole answer to a text.
fn assert_lines(rt: &impl Abort, alloc: Global, text: &[u8], wanted: &[u8]) -> Result<(), Fail> {
    assert!(rt; text.len() <= 1000);
    let lines = clock_lines(alloc, text.to_vec(alloc)?)?;
    assert_eq!(rt; lines.as_slice(), wanted);
    Ok(())
}

// Twelve weeks of 26 are the lesser fraction, and half of a dollar goes up.
#[test]
fn payments(rt: HostRuntime) -> Result<(), Fail> {
    assert_lines(
        &rt,
        rt.alloc(),
        b"pay,7395,450,900,13,26\npay,7395,450,900,12,26\npay,99999,9999,9999,99,99\npay,0,0,1,0,1\n",
        b"1 pay 3698\n2 pay 3413\n3 pay 99999\n4 pay 0\n",
    )
}

// Past 60 percent of the hours all is earned; 10 percent of them, 100,000 cents of charges and 300,000 of Pell; and a disbursement
// that is still to be made.
#[test]
fn returns(rt: HostRuntime) -> Result<(), Fail> {
    assert_lines(
        &rt,
        rt.alloc(),
        b"withdraw,270,450,0.00,0.00,0.00,0.00,0.00,0.00,0.00,0.00,0.00,0.00,0.00,0.00,0.00\n\
          withdraw,271,450,0.00,0.00,0.00,0.00,0.00,0.00,0.00,0.00,0.00,0.00,0.00,0.00,0.00\n\
          withdraw,10,100,1000.00,0.00,0.00,0.00,3000.00,0.00,0.00,0.00,0.00,0.00,0.00,0.00,0.00\n\
          withdraw,30,100,0.00,0.00,0.00,0.00,0.00,0.00,0.00,0.00,0.00,0.00,1000.00,0.00,0.00\n",
        b"1 returned 60.0 0.00 0.00 0.00\n\
          2 returned 100.0 0.00 0.00 0.00\n\
          3 returned 10.0 900.00 300.00 0.00\n\
          4 returned 30.0 0.00 0.00 300.00\n",
    )
}

// Spelling comes before ranges, and the first field before later ones. A number past 64 bits bounds no other.
#[test]
fn errors(rt: HostRuntime) -> Result<(), Fail> {
    assert_lines(
        &rt,
        rt.alloc(),
        b"paid,1,1,1,1,1\npay,1,1,1,1\npay,1,1,1,1,1,1\nwithdraw,1,1\npay,100000,1,1,1,+1\npay,100000,1,1,1,1\n\
          pay,1,10000,20000,1,1\npay,1,901,900,1,1\npay,1,-1,900,1,1\npay,1,5,99999999999999999999,1,1\n\
          pay,1,99999999999999999999,99999999999999999999,1,1\npay,1,1,1,1,100\n\
          withdraw,0,450,0.00,0.00,0.00,0.00,0.00,0.00,0.00,0.00,0.00,0.00,0.00,0.00,0.0\n\
          withdraw,0,450,0.00,0.00,0.00,0.00,0.00,0.00,0.00,0.00,0.00,0.00,0.00,0.00,0.00\n\
          withdraw,1,450,1000000.00,0.00,0.00,0.00,0.00,0.00,0.00,0.00,0.00,0.00,0.00,0.00,0.00\n\
          withdraw,1,450,999999.99,0.00,0.00,0.00,0.00,0.00,0.00,0.00,0.00,0.00,0.00,0.00,9999999999999999999999.00\n",
        b"1 error 1 1\n2 error 0 2\n3 error 0 2\n4 error 0 2\n5 error 6 3\n6 error 2 4\n\
          7 error 4 4\n8 error 3 4\n9 error 3 4\n10 error 4 4\n\
          11 error 3 4\n12 error 6 4\n\
          13 error 16 3\n14 error 2 4\n15 error 4 4\n16 error 16 4\n",
    )
}
