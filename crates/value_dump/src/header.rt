//! What a value dump begins with.

ghost use Rattle.std.specs.Prelude.{◌≡◌, ◌+◌, ◌≤◌, ◌++◌, length};
ghost use Rattle.value_dump.specs.Header.{comment, declarations, header};
ghost use Rattle.value_dump.specs.Names.{OUTLET_ROOM};
ghost use Rattle.value_dump.specs.declared.header.TheConstants.{COMMENT_ROOM, HEADER_ROOM};

use itoa::Buffer;
use trace_stream::Outlet;

/// The most bytes of the comment.
const COMMENT_ROOM: usize = 90;

/// The most bytes of a header.
pub const HEADER_ROOM: usize = 1436;

/// The declarations of all signals, and their values before the first packet.
const DECLARATIONS: &[u8] = b"\
    $scope module itm $end\n$var wire 9 ! exception $end\n$var wire 32 \" pc $end\n\
    $var wire 1 # asleep $end\n$var wire 32 $ port0 $end\n$var wire 32 % port1 $end\n\
    $var wire 32 & port2 $end\n$var wire 32 ' port3 $end\n$var wire 32 ( port4 $end\n\
    $var wire 32 ) port5 $end\n$var wire 32 * port6 $end\n$var wire 32 + port7 $end\n\
    $var wire 32 , port8 $end\n$var wire 32 - port9 $end\n$var wire 32 . port10 $end\n\
    $var wire 32 / port11 $end\n$var wire 32 0 port12 $end\n$var wire 32 1 port13 $end\n\
    $var wire 32 2 port14 $end\n$var wire 32 3 port15 $end\n$var wire 32 4 port16 $end\n\
    $var wire 32 5 port17 $end\n$var wire 32 6 port18 $end\n$var wire 32 7 port19 $end\n\
    $var wire 32 8 port20 $end\n$var wire 32 9 port21 $end\n$var wire 32 : port22 $end\n\
    $var wire 32 ; port23 $end\n$var wire 32 < port24 $end\n$var wire 32 = port25 $end\n\
    $var wire 32 > port26 $end\n$var wire 32 ? port27 $end\n$var wire 32 @ port28 $end\n\
    $var wire 32 A port29 $end\n$var wire 32 B port30 $end\n$var wire 32 C port31 $end\n\
    $var wire 32 D cmp0 $end\n$var wire 32 E cmp1 $end\n$var wire 32 F cmp2 $end\n\
    $var wire 32 G cmp3 $end\n$var wire 1 H lost $end\n$upscope $end\n$enddefinitions $end\n$dumpvars\n\
    bx !\nbx \"\nx#\nbx $\nbx %\nbx &\nbx '\nbx (\nbx )\nbx *\nbx +\nbx ,\nbx -\nbx .\nbx /\nbx 0\n\
    bx 1\nbx 2\nbx 3\nbx 4\nbx 5\nbx 6\nbx 7\nbx 8\nbx 9\nbx :\nbx ;\nbx <\nbx =\nbx >\nbx ?\nbx @\n\
    bx A\nbx B\nbx C\nbx D\nbx E\nbx F\nbx G\n0H\n$end\n";

/// Puts how times are meant.
fn put_comment(outlet: &mut Outlet, hz: Option<u64>)
    requires room { length outlet.old + COMMENT_ROOM ≤ OUTLET_ROOM }
    ensures text { outlet.new ≡ outlet.old ++ comment hz }
    ensures bound { length outlet.new ≤ length outlet.old + COMMENT_ROOM }
{
    match hz {
        None => outlet.append(b"$comment 1 ns stands for one tick of the local timestamps $end\n"),
        Some(hz) => {
            let mut buffer = Buffer::new();
            outlet.append(b"$comment local timestamps by a clock of ");
            outlet.append(buffer.format(hz).as_bytes());
            outlet.append(b" Hz $end\n");
        }
    }
}

/// Puts the declarations.
fn put_declarations(outlet: &mut Outlet)
    requires room { length outlet.old + length declarations ≤ OUTLET_ROOM }
    ensures { outlet.new ≡ outlet.old ++ declarations }
{
    outlet.append(DECLARATIONS);
}

/// Puts the header. Times are in nanoseconds, if the clock of the local timestamps is of so many Hz.
pub(crate) fn put_header(outlet: &mut Outlet, hz: Option<u64>)
    requires room { length outlet.old + HEADER_ROOM ≤ OUTLET_ROOM }
    ensures text { outlet.new ≡ outlet.old ++ header hz }
    ensures bound { length outlet.new ≤ length outlet.old + HEADER_ROOM }
{
    outlet.append(b"$timescale 1 ns $end\n");
    put_comment(outlet, hz);
    put_declarations(outlet);
}
