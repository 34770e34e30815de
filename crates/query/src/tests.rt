// Lines that are queries, and lines that aren't, with the places of their faults as the grammar has them.
use crate::Query;
use row_join::Column;
use script::ScriptFault;
use taken_line::TakenLine;

fn column(object: usize, place: usize) -> Column {
    Column { object, place }
}

// The place of a line's fault.
fn fault_of(line: &[u8]) -> Option<u16> {
    match Query::read(TakenLine::of(line)?) {
        Err(ScriptFault::At { place }) => Some(place),
        _ => None,
    }
}

#[test]
fn names_stand_for_columns(rt: HostRuntime) {
    let line = b"SELECT T.A, U.C FROM T, U WHERE T.B = U.B ORDER BY U.C, T.A;";
    let query = Query::read(TakenLine { octets: line }).expect(&rt, "a query");
    let objects = query.objects.as_slice();
    assert_eq!(rt; objects.len(), 2);
    assert_eq!(rt; objects[0].columns.len(), 2);
    assert_eq!(rt; objects[1].columns.len(), 2);
    assert_eq!(rt;
        query.selected.as_slice(),
        [column(0, 0), column(1, 0)].as_slice()
    );
    assert_eq!(rt;
        query.order.as_slice(),
        [column(1, 0), column(0, 0)].as_slice()
    );
    let equalities = query.equalities.as_slice();
    assert_eq!(rt; equalities.len(), 1);
    assert_eq!(rt; equalities[0].left, column(0, 1));
    assert_eq!(rt; equalities[0].right, column(1, 1));
}

#[test]
fn faults_have_their_places(rt: HostRuntime) {
    assert_eq!(rt; fault_of(b"SELECT T.A FROM T, U"), None);
    assert_eq!(rt; fault_of(b"SELECT T.A FROM T, Z;"), None);
    assert_eq!(rt; fault_of(b""), Some(0));
    assert_eq!(rt; fault_of(b"SELECT T.A FROM T"), Some(17));
    assert_eq!(rt; fault_of(b"SELECT * FROM T, U"), Some(7));
    assert_eq!(rt; fault_of(b"SELECT A FROM T, U"), Some(9));
    assert_eq!(rt; fault_of(b"SELECT T.A FROM T, U, V, W"), Some(23));
    assert_eq!(rt; fault_of(b"SELECT T.A FROM T, U WHERE T.A = '1'"), Some(33));
    assert_eq!(rt; fault_of(b"SELECT T.A FROM T, U ORDER T.A"), Some(27));
    assert_eq!(rt;
        fault_of(b"SELECT T.A FROM T, U ORDER BY T.A WHERE T.A = U.A"),
        Some(34)
    );
    assert_eq!(rt; fault_of(b"SELECT T.A FROM T, U;;"), Some(21));
    assert_eq!(rt; fault_of(b"SELECT T.A FROM T, T"), Some(19));
    assert_eq!(rt; fault_of(b"SELECT T.A, V.A FROM T, T"), Some(12));
    assert_eq!(rt; fault_of(b"SELECT T.A FROM T, U WHERE T.A = V.A"), Some(33));
}
