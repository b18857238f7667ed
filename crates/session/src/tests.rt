// A whole session, line by line.
use crate::exchanges::answer_all;
use crate::sessions::Session;
use std::test::Fail;

// A session whose answers were worked out without this program: cut commits, formats and recovers between them, values and names of every kind.
const LINES: &str = "\
    plan 5 255 6148914691236517205\nplan 3 0 0\nplan 13 1 0\nplan 3 0 6148914691236517205\n\
    plan 2 3 0\nplan 15 255 18446744073709551615\nplan 0 0 18446744073709551615\n\
    plan 42 1 18446744073709551615\nformat\nbegin\nput B1 6190\nput AC5 32757\nput AC2 -72\n\
    put AC6 23153\nput AC1 408\nput MB -32768\nput B2 4\nput MC -8711\nput AC3 -14383\n\
    put AC4 32741\nput MD 2868\ncommit\nplan 8 0 5559094176864561769\nformat\nbegin\nput OSS 3\n\
    put AC6 23153\nput AC2 -72\nput OSS 0\nput XX -31579\ncommit\ntemp 21950\npress 42569\nrecover\n\
    get PCOR\nrecover\nget PCOR\nput B2 7\nbegin\nput OSS 2\ncommit\n\
    plan 17 0 12653836187870216002\nrecover\nbegin\nput MC -32768\ncommit\nget OSS\n\
    plan 1 1 10956632270161919426\nrecover\nbegin\nput AC2 -1\nput AC5 1\nput OSS 3\n\
    put ac1 2147483647\nput AC 8873\nput AC 32767\nput AC6 65534\nput MB -32768\nput OSS 2\n\
    put AC2 2147483647\nput MB 1\nput MD -31251\nabandon\ntemp 65535\npress 524287\npress 524287\n\
    temp 25735\npress 524287\nget MB\nget B2\npress 23843\nbegin\nput XX 1\nrecover\nget ZZ\n\
    temp 0\npress -1\npress 65535\nbegin\nput AC6 23153\nabandon\nbegin\nput AC3 32768\n\
    put PCOR -501\nput OSS 4\nput AC4 32741\nput MC -32769\nput OSS 1\nput AC -2147483648\n\
    put AC1 408\nput AC5 32757\nput PCOR 500\nput AC -32769\nput AC6 0\nput AC1 408\ncommit\n\
    recover\nbegin\nput ac1 0\nput AC1 408\nput B2 -1\nput AC5 0\nput AC -32768\nput MC -8711\n\
    put MC -29280\nput AC5 32757\nput ac1 2147483647\nput XX -2147483648\nput AC 17756\n\
    put B1 32767\nput AC1 -2147483648\ncommit\ntemp 0\npress 501651\nget OSS\nbegin\ncommit\n\
    temp 27898\ntemp 3349\npress 72042\npress 0\n\
    ";

const ANSWERS: &str = "\
    ok 1\nok 2\nok 3\nok 4\nok 5\nok 6\nok 7\nok 8\nok 0\nok 1\nok 1\nok 2\nok 3\nok 4\nok 5\nok 6\n\
    ok 7\nok 8\nok 9\nok 10\nok 11\nno 11 0 3\nok 9\nok 0\nok 2\nok 1\nok 2\nok 3\nok 3\nno 7\n\
    no 11 0 1\nno 1\nno 17\nok 0\nok -\nok 0\nok -\nno 17\nok 3\nok 1\nok 1\nok 10\nok 1\nok 4\n\
    ok 1\nok 2\nok 2\nok 11\nok 2\nok 5\nno 8\nok 1\nok 2\nno 7\nno 7\nno 7\nok 3\nok 4\nok 4\n\
    no 8\nok 4\nok 5\nok\nno 13\nno 17\nno 17\nno 13\nno 17\nok -\nok -\nno 17\nok 6\nno 7\nok 2\n\
    no 7\nno 13\nno 17\nno 17\nok 7\nok 1\nok\nok 8\nno 8\nno 8\nno 8\nok 1\nno 8\nok 2\nno 7\n\
    ok 3\nok 4\nok 5\nno 7\nno 8\nok 5\nno 11 0 5\nok 2\nok 9\nno 7\nok 1\nno 8\nno 8\nno 7\nok 2\n\
    ok 2\nok 3\nno 7\nno 7\nno 7\nok 4\nno 8\nok 3\nno 13\nno 17\nok 2\nok 10\nok 4\nno 13\nno 13\n\
    no 17\nno 17\n\
    ";

#[test]
fn a_session_is_answered(rt: HostRuntime) -> Result<(), Fail> {
    let mut session = Session::blank(rt.alloc())?;
    let mut written = Vec::new(rt.alloc());
    let done = answer_all(
        rt.alloc(),
        &mut session,
        &mut LINES.as_bytes(),
        &mut written,
    );
    let _ = session.finish();
    assert!(rt; done.is_ok());
    assert_eq!(rt; written.as_slice(), ANSWERS.as_bytes());
    Ok(())
}
