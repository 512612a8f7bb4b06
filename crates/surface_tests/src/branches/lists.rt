//! `Listed`: a list of which contracts see the items alone.

use schedule_trie::Listed;
use std::test::Fail;

#[test]
fn each_call_of_a_list(rt: HostRuntime) -> Result<(), Fail> {
    let mut list = Listed::of(rt.alloc(), &[1, 2])?;
    list.push(3)?;
    let copy = list.clone()?;
    let again = Listed::of(copy.allocator(), copy.as_slice())?;
    assert!(rt; again.as_slice() == [1, 2, 3].as_slice());
    let made_again = Listed::new(list.into_vec());
    assert!(rt; made_again.as_slice() == [1, 2, 3].as_slice());
    Ok(())
}
