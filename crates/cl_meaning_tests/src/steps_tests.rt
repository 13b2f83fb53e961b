//! The events of single work-items in order, where they stand, and how many steps they made.

use crate::shown::shown;
use std::test::Fail;

// A text, what its kernel is given, an item, its answers, the steps that it may make, and what it does.
type Run<'a> = (&'a str, &'a str, u32, &'a str, u64, &'a str);

#[test]
fn counts_a_sum(rt: HostRuntime) -> Result<(), Fail> {
    let table: [Run<'_>; 5] = [
        (
            "__kernel void k(__global uint *a){a[get_global_id(0)]=get_global_id(0)+7;}",
            "g 4 l 2 w 0*4",
            2,
            "q 0",
            100,
            "done 18 |; write buffer 0 8 32 9",
        ),
        (
            "__kernel void k(__global uint *a){a[get_global_id(0)]=get_global_id(0)+7;}",
            "g 4 l 2 w 0*4",
            3,
            "q",
            100,
            "asks 18; write buffer 0 12 32 10 |",
        ),
        (
            "__kernel void k(__global uint *a){a[get_global_id(0)]=get_global_id(0)+7;}",
            "g 4 l 2 w 0*4",
            2,
            "q 0",
            18,
            "done 18 |; write buffer 0 8 32 9",
        ),
        (
            "__kernel void k(__global uint *a){a[get_global_id(0)]=get_global_id(0)+7;}",
            "g 4 l 2 w 0*4",
            2,
            "q 0",
            17,
            "running 17 |",
        ),
        (
            "__kernel void k(__global uint *a){a[get_global_id(0)]=get_global_id(0)+7;}",
            "g 4 l 2 w 0*4",
            2,
            "q 0",
            0,
            "running 0 |",
        ),
    ];
    for (text, given, item, answers, fuel, wanted) in table {
        let run = shown(rt.alloc(), text, given, item, answers, fuel)?;
        assert_eq!(rt; run.as_str(), wanted, "{text}");
    }
    Ok(())
}

#[test]
fn counts_statements_and_nodes(rt: HostRuntime) -> Result<(), Fail> {
    let table: [Run<'_>; 14] = [
        (
            "__kernel void k(__global int*a){}",
            "w 0",
            0,
            "q",
            100,
            "done 3 |",
        ),
        (
            "__kernel void k(__global int*a){;}",
            "w 0",
            0,
            "q",
            100,
            "done 4 |",
        ),
        (
            "__kernel void k(__global int*a){{}{;}}",
            "w 0",
            0,
            "q",
            100,
            "done 6 |",
        ),
        (
            "__kernel void k(__global int*a){return;}",
            "w 0",
            0,
            "q",
            100,
            "done 4 |",
        ),
        (
            "__kernel void k(__global int*a){1;}",
            "w 0",
            0,
            "q",
            100,
            "done 5 |",
        ),
        (
            "__kernel void k(__global int*a){1+2;}",
            "w 0",
            0,
            "q",
            100,
            "done 7 |",
        ),
        (
            "__kernel void k(__global int*a){(int4)(1);}",
            "w 0",
            0,
            "q",
            100,
            "done 9 |",
        ),
        (
            "__kernel void k(__global int*a){(int2)(1,2)+(int2)(3,4);}",
            "w 0",
            0,
            "q",
            100,
            "done 14 |",
        ),
        (
            "__kernel void k(__global int*a){1l+2;}",
            "w 0",
            0,
            "q",
            100,
            "done 8 |",
        ),
        (
            "__kernel void k(__global int*a){a;}",
            "w 0",
            0,
            "q",
            100,
            "done 5 |",
        ),
        (
            "__kernel void k(__global int*a){int x;}",
            "w 0",
            0,
            "q",
            100,
            "done 4 |",
        ),
        (
            "__kernel void k(__global int*a){int x=3;}",
            "w 0",
            0,
            "q",
            100,
            "done 5 |",
        ),
        (
            "__kernel void k(__global int*a){int x=3,y=x;}",
            "w 0",
            0,
            "q",
            100,
            "done 7 |",
        ),
        (
            "__kernel void k(__global int*a){int x[3]={1};}",
            "w 0",
            0,
            "q",
            100,
            "done 8 |",
        ),
    ];
    for (text, given, item, answers, fuel, wanted) in table {
        let run = shown(rt.alloc(), text, given, item, answers, fuel)?;
        assert_eq!(rt; run.as_str(), wanted, "{text}");
    }
    Ok(())
}

#[test]
fn counts_calls(rt: HostRuntime) -> Result<(), Fail> {
    let table: [Run<'_>; 5] = [
        (
            "int f(int x){return x;}__kernel void k(__global int*a){a[0]=f(2);}",
            "w 0",
            0,
            "q 0",
            100,
            "done 16 |; write buffer 0 0 32 2",
        ),
        (
            "void f(void){}__kernel void k(__global int*a){f();}",
            "w 0",
            0,
            "q",
            100,
            "done 7 |",
        ),
        (
            "void f(int x,int2 y){}__kernel void k(__global int*a){f(1,(int2)(2));}",
            "w 0",
            0,
            "q",
            100,
            "done 16 |",
        ),
        (
            "int f(int x){if(x)return 1;}__kernel void k(__global int*a){f(0);}",
            "w 0",
            0,
            "q",
            100,
            "done 11 |",
        ),
        (
            "__kernel void k(__global int*a){min(1,2);}",
            "w 0",
            0,
            "q",
            100,
            "done 9 |",
        ),
    ];
    for (text, given, item, answers, fuel, wanted) in table {
        let run = shown(rt.alloc(), text, given, item, answers, fuel)?;
        assert_eq!(rt; run.as_str(), wanted, "{text}");
    }
    Ok(())
}

#[test]
fn counts_choices(rt: HostRuntime) -> Result<(), Fail> {
    let table: [Run<'_>; 4] = [
        (
            "__kernel void k(__global int*a){if(a[0])a[1]=1;}",
            "w 0 0",
            0,
            "q 1 0",
            100,
            "done 13 |; read buffer 0 0 32; write buffer 0 4 32 1",
        ),
        (
            "__kernel void k(__global int*a){if(a[0])a[1]=1;}",
            "w 0 0",
            0,
            "q 0",
            100,
            "done 7 |; read buffer 0 0 32",
        ),
        (
            "__kernel void k(__global int*a){if(a[0])a[1]=1;else a[0]=2;}",
            "w 0 0",
            0,
            "q 0 0",
            100,
            "done 13 |; read buffer 0 0 32; write buffer 0 0 32 2",
        ),
        (
            "__kernel void k(__global int*a){a[0]?1:2;}",
            "w 0 0",
            0,
            "q 5",
            100,
            "done 9 |; read buffer 0 0 32",
        ),
    ];
    for (text, given, item, answers, fuel, wanted) in table {
        let run = shown(rt.alloc(), text, given, item, answers, fuel)?;
        assert_eq!(rt; run.as_str(), wanted, "{text}");
    }
    Ok(())
}

#[test]
fn counts_operands_that_are_passed_over(rt: HostRuntime) -> Result<(), Fail> {
    let table: [Run<'_>; 4] = [
        (
            "__kernel void k(__global int*a){a[1]=a[0]&&a[1];}",
            "w 0 0",
            0,
            "q 0 0",
            100,
            "done 12 |; read buffer 0 0 32; write buffer 0 4 32 0",
        ),
        (
            "__kernel void k(__global int*a){a[1]=a[0]&&a[1];}",
            "w 0 0",
            0,
            "q 1 3 0",
            100,
            "done 15 |; read buffer 0 0 32; read buffer 0 4 32; write buffer 0 4 32 1",
        ),
        (
            "__kernel void k(__global int*a){a[1]=a[0]||a[1];}",
            "w 0 0",
            0,
            "q 1 0",
            100,
            "done 12 |; read buffer 0 0 32; write buffer 0 4 32 1",
        ),
        (
            "__kernel void k(__global int*a){a[1]=(a[0],a[1]);}",
            "w 0 0",
            0,
            "q 1 9 0",
            100,
            "done 15 |; read buffer 0 0 32; read buffer 0 4 32; write buffer 0 4 32 9",
        ),
    ];
    for (text, given, item, answers, fuel, wanted) in table {
        let run = shown(rt.alloc(), text, given, item, answers, fuel)?;
        assert_eq!(rt; run.as_str(), wanted, "{text}");
    }
    Ok(())
}

#[test]
fn counts_loops(rt: HostRuntime) -> Result<(), Fail> {
    let table: [Run<'_>; 7] = [
        (
            "__kernel void k(__global int*a){for(int i=0;i<2;i++)a[i]=i;}",
            "w 0 0",
            0,
            "q 0 0",
            200,
            "done 31 |; write buffer 0 0 32 0; write buffer 0 4 32 1",
        ),
        (
            "__kernel void k(__global int*a){for(int i=0;i<2;i++)a[i]=i;}",
            "w 0 0",
            0,
            "q 0",
            200,
            "asks 26; write buffer 0 4 32 1 |; write buffer 0 0 32 0",
        ),
        (
            "__kernel void k(__global int*a){while(a[0]);}",
            "w 0 0",
            0,
            "q 1 1 0",
            200,
            "done 15 |; read buffer 0 0 32; read buffer 0 0 32; read buffer 0 0 32",
        ),
        (
            "__kernel void k(__global int*a){do a[0]--;while(a[0]);}",
            "w 0 0",
            0,
            "q 2 0 1 1 0 0",
            200,
            "done 20 |; read buffer 0 0 32; write buffer 0 0 32 1; read buffer 0 0 32; read buffer 0 0 32; write buffer 0 0 32 0; read buffer 0 0 32",
        ),
        (
            "__kernel void k(__global int*a){for(;;);}",
            "w 0 0",
            0,
            "q",
            100,
            "running 100 |",
        ),
        (
            "__kernel void k(__global int*a){for(;;)break;}",
            "w 0 0",
            0,
            "q",
            100,
            "done 6 |",
        ),
        (
            "__kernel void k(__global int*a){for(int i=0;i<2;i++)continue;}",
            "w 0 0",
            0,
            "q",
            100,
            "done 21 |",
        ),
    ];
    for (text, given, item, answers, fuel, wanted) in table {
        let run = shown(rt.alloc(), text, given, item, answers, fuel)?;
        assert_eq!(rt; run.as_str(), wanted, "{text}");
    }
    Ok(())
}

#[test]
fn counts_switches(rt: HostRuntime) -> Result<(), Fail> {
    let table: [Run<'_>; 3] = [
        (
            "__kernel void k(__global int*a){switch(a[0]){case 1:a[1]=5;case 2:a[1]=6;break;default:a[1]=7;}}",
            "w 0 0",
            0,
            "q 1 0 0",
            100,
            "done 20 |; read buffer 0 0 32; write buffer 0 4 32 5; write buffer 0 4 32 6",
        ),
        (
            "__kernel void k(__global int*a){switch(a[0]){case 1:a[1]=5;case 2:a[1]=6;break;default:a[1]=7;}}",
            "w 0 0",
            0,
            "q 2 0",
            100,
            "done 14 |; read buffer 0 0 32; write buffer 0 4 32 6",
        ),
        (
            "__kernel void k(__global int*a){switch(a[0]){case 1:a[1]=5;case 2:a[1]=6;break;default:a[1]=7;}}",
            "w 0 0",
            0,
            "q 3 0",
            100,
            "done 13 |; read buffer 0 0 32; write buffer 0 4 32 7",
        ),
    ];
    for (text, given, item, answers, fuel, wanted) in table {
        let run = shown(rt.alloc(), text, given, item, answers, fuel)?;
        assert_eq!(rt; run.as_str(), wanted, "{text}");
    }
    Ok(())
}

#[test]
fn reads_and_writes_scalar_by_scalar(rt: HostRuntime) -> Result<(), Fail> {
    let table: [Run<'_>; 13] = [
        (
            "__kernel void k(__global int4*r){int4 v=r[1];}",
            "w 0*8",
            0,
            "q 1 2 3 4",
            100,
            "done 10 |; read buffer 0 16 32; read buffer 0 20 32; read buffer 0 24 32; read buffer 0 28 32",
        ),
        (
            "__kernel void k(__global int4*r){int4 v=r[1];}",
            "w 0*8",
            0,
            "q 1 2",
            100,
            "asks 9; read buffer 0 24 32 |; read buffer 0 16 32; read buffer 0 20 32",
        ),
        (
            "__kernel void k(__global int4*r){r[0].xz=r[1].wy;}",
            "w 0*8",
            0,
            "q 1 2 0 0",
            100,
            "done 15 |; read buffer 0 28 32; read buffer 0 20 32; write buffer 0 0 32 1; write buffer 0 8 32 2",
        ),
        (
            "typedef struct{char c;int x;}S;__kernel void k(__global S*s){s[1]=s[0];}",
            "w 0*4",
            0,
            "q 258 7 0 0",
            100,
            "done 13 |; read buffer 0 0 8; read buffer 0 4 32; write buffer 0 8 8 2; write buffer 0 12 32 7",
        ),
        (
            "typedef struct{char c;int x;}S;__kernel void k(__global S*s){S t;t.c=1;t.x=2;s[0]=t;}",
            "w 0*4",
            0,
            "q 0 0",
            100,
            "done 23 |; write buffer 0 0 8 1; write buffer 0 4 32 2",
        ),
        (
            "typedef struct{char c;int x;}S;__kernel void k(__global S*s){S t={3,4};s[0].x=t.x;}",
            "w 0*4",
            0,
            "q 0",
            100,
            "done 17 |; write buffer 0 4 32 4",
        ),
        (
            "__kernel void k(__global char3*r){r[1]=r[0];}",
            "b 0*8",
            0,
            "q 255 2 3 0 0 0",
            100,
            "done 15 |; read buffer 0 0 8; read buffer 0 1 8; read buffer 0 2 8; write buffer 0 4 8 255; write buffer 0 5 8 2; write buffer 0 6 8 3",
        ),
        (
            "__constant short c[]={1,-2};__kernel void k(__global int*a){a[0]=c[1];}",
            "w 0",
            0,
            "q 65534 0",
            100,
            "done 12 |; read constant 0 2 16; write buffer 0 0 32 4294967294",
        ),
        (
            "__kernel void k(__global int*a){a[0]+=2;}",
            "w 0",
            0,
            "q 5 0",
            100,
            "done 9 |; read buffer 0 0 32; write buffer 0 0 32 7",
        ),
        (
            "__kernel void k(__global int*a){a[0]++;}",
            "w 0",
            0,
            "q 5 0",
            100,
            "done 8 |; read buffer 0 0 32; write buffer 0 0 32 6",
        ),
        (
            "__kernel void k(__global int*a){int x=--a[0];}",
            "w 0",
            0,
            "q 5 0",
            100,
            "done 8 |; read buffer 0 0 32; write buffer 0 0 32 4",
        ),
        (
            "__kernel void k(__global int*a){int*p;int x=1;p=&x;*p=*p+1;}",
            "w 0",
            0,
            "q",
            100,
            "done 19 |",
        ),
        (
            "__kernel void k(__global int*a,int2 v,long n){a[0]=v.y+n;}",
            "w 0 W 3 4 Q 5",
            0,
            "q 0",
            100,
            "done 17 |; write buffer 0 0 32 9",
        ),
    ];
    for (text, given, item, answers, fuel, wanted) in table {
        let run = shown(rt.alloc(), text, given, item, answers, fuel)?;
        assert_eq!(rt; run.as_str(), wanted, "{text}");
    }
    Ok(())
}

#[test]
fn asks_for_what_lies_outside(rt: HostRuntime) -> Result<(), Fail> {
    let table: [Run<'_>; 12] = [
        (
            "__kernel void k(__global int*a){a[0]=1/a[1];}",
            "w 0 0",
            0,
            "q 0 77 0",
            100,
            "done 13 |; read buffer 0 4 32; free 32; write buffer 0 0 32 77",
        ),
        (
            "__kernel void k(__global int*a){a[0]=1/a[1];}",
            "w 0 0",
            0,
            "q 0",
            100,
            "asks 12; free 32 |; read buffer 0 4 32",
        ),
        (
            "__kernel void k(__global char2*a){a[0]=a[0]%(char2)(0,2);}",
            "b 0*4",
            0,
            "q 1 5 300 0 0",
            100,
            "done 21 |; read buffer 0 0 8; read buffer 0 1 8; free 8; write buffer 0 0 8 44; write buffer 0 1 8 1",
        ),
        (
            "__kernel void k(__global int*a){atomic_add(a+1,7);}",
            "w 0 0",
            0,
            "q 3",
            100,
            "done 11 |; atomic buffer 0 4 32 7",
        ),
        (
            "__kernel void k(__global int*a){a[0]=atomic_cmpxchg(a,1,2);}",
            "w 0 0",
            0,
            "q 9 0",
            100,
            "done 15 |; atomic buffer 0 0 32 1 2; write buffer 0 0 32 9",
        ),
        (
            "__kernel void k(__global int*a,__local int*t){__local int u;t[1]=a[0];u=t[1];}",
            "w 0 m 8",
            0,
            "q 4 0 4 0",
            100,
            "done 19 |; read buffer 0 0 32; write argument 1 4 32 4; read argument 1 4 32; write local 0 0 32 4",
        ),
        (
            "void w(void){barrier(1);}__kernel void k(__global int*a){w();barrier(2);}",
            "w 0",
            0,
            "q",
            100,
            "asks 10; barrier 1.0 0.2 |",
        ),
        (
            "void w(void){barrier(1);}__kernel void k(__global int*a){w();barrier(2);}",
            "w 0",
            0,
            "q 0",
            100,
            "asks 15; barrier 1.3 |; barrier 1.0 0.2",
        ),
        (
            "void w(void){barrier(1);}__kernel void k(__global int*a){w();barrier(2);}",
            "w 0",
            0,
            "q 0 0",
            100,
            "done 15 |; barrier 1.0 0.2; barrier 1.3",
        ),
        (
            "__kernel void k(__global int*a){mem_fence(1);}",
            "w 0",
            0,
            "q",
            100,
            "done 7 |",
        ),
        (
            "__kernel void k(__global int*a){int2 v=vload2(1,a);}",
            "w 0*4",
            0,
            "q 8 9",
            100,
            "done 11 |; read buffer 0 8 32; read buffer 0 12 32",
        ),
        (
            "__kernel void k(__global int*a){vstore2((int2)(1,2),1,a);}",
            "w 0*4",
            0,
            "q 0 0",
            100,
            "done 15 |; write buffer 0 8 32 1; write buffer 0 12 32 2",
        ),
    ];
    for (text, given, item, answers, fuel, wanted) in table {
        let run = shown(rt.alloc(), text, given, item, answers, fuel)?;
        assert_eq!(rt; run.as_str(), wanted, "{text}");
    }
    Ok(())
}

#[test]
fn counts_the_grid(rt: HostRuntime) -> Result<(), Fail> {
    let table: [Run<'_>; 2] = [
        (
            "__kernel void k(__global int*a){a[0]=get_work_dim();}",
            "g 2 2 1 l 1 1 1 w 0",
            0,
            "q 0",
            100,
            "done 10 |; write buffer 0 0 32 3",
        ),
        (
            "__kernel void k(__global int*a){a[get_global_id(0)]=get_local_id(1)+get_group_id(1)+get_global_size(3)+get_global_id(4);}",
            "g 4 4 l 2 2 w 0*16",
            14,
            "q 0",
            100,
            "done 31 |; write buffer 0 8 32 3",
        ),
    ];
    for (text, given, item, answers, fuel, wanted) in table {
        let run = shown(rt.alloc(), text, given, item, answers, fuel)?;
        assert_eq!(rt; run.as_str(), wanted, "{text}");
    }
    Ok(())
}

#[test]
fn stops_at_what_is_undefined(rt: HostRuntime) -> Result<(), Fail> {
    let table: [Run<'_>; 3] = [
        (
            "__kernel void k(__global int*a){a[1]=5;a[0]=a[-1];}",
            "w 0 0",
            0,
            "q 0",
            100,
            "undefined 16 |; write buffer 0 4 32 5",
        ),
        (
            "__kernel void k(__global int*a){a[1]=5;int x[2];int*p=x+3;}",
            "w 0 0",
            0,
            "q 0",
            100,
            "undefined 14 |; write buffer 0 4 32 5",
        ),
        (
            "__kernel void k(__global int*a){a[1]=5;a[2]=6;}",
            "w 0 0",
            0,
            "q 0",
            100,
            "undefined 14 |; write buffer 0 4 32 5",
        ),
    ];
    for (text, given, item, answers, fuel, wanted) in table {
        let run = shown(rt.alloc(), text, given, item, answers, fuel)?;
        assert_eq!(rt; run.as_str(), wanted, "{text}");
    }
    Ok(())
}
