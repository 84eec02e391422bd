// Single numbers, as they are read.
use fault::Stop;
use preset::read_number;
use std::test::Fail;

#[test]
fn groups_of_seven_bits(rt: HostRuntime) -> Result<(), Fail> {
    let (value, rest) = read_number(&[0x82, 0x2c, 7], 0)?;
    assert_eq!(rt; value, 300);
    assert_eq!(rt; rest.len(), 1);
    let (value, rest) = read_number(&[0x8f, 0xff, 0xff, 0xff, 0x7f], 0)?;
    assert_eq!(rt; value, 4_294_967_295);
    assert_eq!(rt; rest.len(), 0);
    Ok(())
}

#[test]
fn misspelt_and_cut_short(rt: HostRuntime) {
    let misspelt = Stop::Misspelt.at(4);
    let cut = Stop::CutShort.at(4);
    assert_eq!(rt; read_number(&[0x80], 4), Err(misspelt));
    assert_eq!(rt; read_number(&[0x80, 0x00], 4), Err(misspelt));
    assert_eq!(rt;
        read_number(&[0x90, 0x80, 0x80, 0x80, 0x00], 4),
        Err(misspelt)
    );
    assert_eq!(rt;
        read_number(&[0x81, 0x80, 0x80, 0x80, 0x80], 4),
        Err(misspelt)
    );
    assert_eq!(rt; read_number(&[0x90, 0x80, 0x80, 0x80], 4), Err(cut));
    assert_eq!(rt; read_number(&[0x81], 4), Err(cut));
    assert_eq!(rt; read_number(&[], 4), Err(cut));
}
