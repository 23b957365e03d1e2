// Worked cases: proved of the definitions, and run.
#![tactic(auto)]

ghost use Rattle.cases.specs.Table.{WorkedCases};

// The table of worked cases holds.
pub fn worked_cases_stand() -> u8
    ensures { WorkedCases }
{
    0
}

#[cfg(test)]
mod tests {
    use device::{GroupKey, PairKey, Usig, check_record};
    use std::process::Abort;
    use std::test::Fail;
    use wire::{
        Body, Message, RECORD_LEN, Refusal, Vouch, primary, quorum, read, read_request, write,
    };

    type Record = [u8; RECORD_LEN];

    // A record of a kind by replica 1 with count 1, and zeros.
    fn plain(kind: u8) -> Record {
        let mut record = [0; RECORD_LEN];
        record[0] = kind;
        record[1] = 1;
        record[7] = 1;
        record
    }

    // The question that was answered with no, and its place.
    fn said(refusal: Refusal) -> (u32, u32) {
        (refusal.number(), refusal.place())
    }

    // Reading is refused for the form, at this byte.
    fn bad_at(rt: &impl Abort, size: u8, record: &Record, byte: u32) {
        assert_eq!(rt; read(size, record).map_err(said), Err((3, byte)));
    }

    // A record is read, and its message written gives it again.
    fn good(rt: &impl Abort, size: u8, record: &Record) -> Result<(), Fail> {
        let message = read(size, record)?;
        let mut again = [1; RECORD_LEN];
        write(&message, &mut again)?;
        assert_eq!(rt; again, *record);
        Ok(())
    }

    #[test]
    fn sizes(rt: HostRuntime) {
        assert_eq!(rt; primary(3, 7), Some(1));
        assert_eq!(rt; primary(7, 4294967295), Some(3));
        assert_eq!(rt; primary(4, 7), None);
        assert_eq!(rt; quorum(7), Some(4));
        assert_eq!(rt; quorum(1), None);
    }

    #[test]
    fn commit(rt: HostRuntime) -> Result<(), Fail> {
        let message = Message {
            sender: 1,
            count: 3,
            body: Body::Commit {
                vouch: Vouch { view: 0, length: 2 },
            },
        };
        let mut record = [9; RECORD_LEN];
        write(&message, &mut record)?;
        let mut wanted = [0; RECORD_LEN];
        wanted[0] = 2;
        wanted[1] = 1;
        wanted[7] = 3;
        wanted[15] = 2;
        assert_eq!(rt; record, wanted);
        good(&rt, 3, &record)
    }

    // The first bad field in the order of the bytes gives the place.
    #[test]
    fn heads(rt: HostRuntime) -> Result<(), Fail> {
        let mut record = plain(2);
        good(&rt, 3, &record)?;
        bad_at(&rt, 4, &record, 1);
        record[47] = 1;
        bad_at(&rt, 3, &record, 47);
        record[7] = 0;
        bad_at(&rt, 3, &record, 4);
        record[3] = 1;
        bad_at(&rt, 3, &record, 3);
        record[2] = 1;
        bad_at(&rt, 3, &record, 2);
        record[1] = 3;
        bad_at(&rt, 3, &record, 1);
        record[0] = 6;
        bad_at(&rt, 3, &record, 0);
        Ok(())
    }

    #[test]
    fn bodies(rt: HostRuntime) -> Result<(), Fail> {
        let mut prepare = plain(1);
        bad_at(&rt, 3, &prepare, 14);
        prepare[17] = 1;
        good(&rt, 3, &prepare)?;
        prepare[13] = 64;
        bad_at(&rt, 3, &prepare, 12);
        let mut checkpoint = plain(3);
        bad_at(&rt, 3, &checkpoint, 8);
        checkpoint[11] = 17;
        bad_at(&rt, 3, &checkpoint, 8);
        checkpoint[11] = 32;
        good(&rt, 3, &checkpoint)?;
        checkpoint[44] = 1;
        bad_at(&rt, 3, &checkpoint, 44);
        let mut change = plain(4);
        good(&rt, 3, &change)?;
        change[20] = 1;
        bad_at(&rt, 3, &change, 20);
        Ok(())
    }

    // The same pairs are right in one size and wrong in another.
    #[test]
    fn pairs(rt: HostRuntime) -> Result<(), Fail> {
        let mut record = plain(5);
        bad_at(&rt, 3, &record, 13);
        record[16] = 1;
        record[17] = 2;
        record[21] = 1;
        good(&rt, 3, &record)?;
        bad_at(&rt, 5, &record, 22);
        record[22] = 4;
        record[26] = 1;
        bad_at(&rt, 3, &record, 22);
        good(&rt, 5, &record)?;
        bad_at(&rt, 7, &record, 27);
        record[22] = 2;
        bad_at(&rt, 5, &record, 22);
        record[12] = 5;
        bad_at(&rt, 5, &record, 12);
        Ok(())
    }

    #[test]
    fn requests(rt: HostRuntime) {
        let mut request = [0; 16];
        assert_eq!(rt; read_request(&request).map_err(said), Err((3, 2)));
        request[1] = 64;
        assert_eq!(rt; read_request(&request).map_err(said), Err((3, 0)));
        assert_eq!(rt; read_request(&request[0..15]).map_err(said), Err((2, 1)));
    }

    // What a make answers: nothing, or the number of its refusal.
    fn made<D: Usig>(device: &mut D, record: &mut [u8], tag: &mut [u8]) -> Result<(), u32> {
        device.make(record, tag).map_err(Refusal::number)
    }

    // What a check answers.
    fn checked<D: Usig>(device: &D, size: u8, record: &[u8], tag: &[u8]) -> Result<(), u32> {
        check_record(device, size, record, tag)
            .map(|_| ())
            .map_err(Refusal::number)
    }

    #[test]
    fn group_keys(rt: HostRuntime) {
        let mut device = GroupKey::new(3, 2, &[7; 32], 2);
        let mut record = plain(2);
        let mut tag = [0; 32];
        assert_eq!(rt; made(&mut device, &mut [0; 47], &mut tag), Err(2));
        assert_eq!(rt; made(&mut device, &mut record, &mut tag), Ok(()));
        assert_eq!(rt; record[1], 2);
        assert_eq!(rt; record[7], 1);
        assert_eq!(rt; checked(&device, 3, &record, &tag), Ok(()));
        assert_eq!(rt; made(&mut device, &mut record, &mut tag), Ok(()));
        assert_eq!(rt; record[7], 2);
        assert_eq!(rt; made(&mut device, &mut record, &mut tag), Err(13));
        let other = GroupKey::new(3, 0, &[8; 32], 0);
        assert_eq!(rt; checked(&other, 3, &record, &tag), Err(4));
        let outside = GroupKey::new(3, 3, &[7; 32], 9);
        assert_eq!(rt; outside.last(), 0);
        assert_eq!(rt; checked(&outside, 3, &record, &tag), Err(4));
        tag[31] ^= 1;
        assert_eq!(rt; checked(&device, 3, &record, &tag), Err(4));
    }

    // Devices 1 and 2 hold the same key for each other, and 0 holds another for 1.
    #[test]
    fn pair_keys(rt: HostRuntime) {
        let mut keys = [[9; 32]; 7];
        keys[2] = [12; 32];
        let mut one = PairKey::new(3, 1, &keys, 9);
        keys[1] = [12; 32];
        let two = PairKey::new(3, 2, &keys, 9);
        let zero = PairKey::new(3, 0, &keys, 9);
        let mut record = plain(2);
        let mut tag = [5; 224];
        assert_eq!(rt; made(&mut one, &mut record, &mut tag), Ok(()));
        assert_eq!(rt; tag[96], 0);
        assert_eq!(rt; tag[223], 0);
        assert_eq!(rt; checked(&one, 3, &record, &tag), Ok(()));
        assert_eq!(rt; checked(&two, 3, &record, &tag), Ok(()));
        assert_eq!(rt; checked(&zero, 3, &record, &tag), Err(4));
        tag[0] ^= 1;
        tag[200] ^= 1;
        assert_eq!(rt; checked(&two, 3, &record, &tag), Ok(()));
        tag[64] ^= 1;
        assert_eq!(rt; checked(&two, 3, &record, &tag), Err(4));
    }
}
